//! How large a queue is.
ghost use Rattle.std.specs.Prelude.{◌≡◌, IfOk, MatchResult};
ghost use Rattle.wq_words.specs.Limits.{AreInLimits, IsFirstOutOfLimits};

use thiserror::Error;

/// The most items that a queue can have.
pub const MOST_ITEMS: u32 = 65_536;

/// The most barriers that a queue can have.
pub const MOST_BARRIERS: u32 = 16;

/// The most senders that a queue can have.
pub const MOST_SENDERS: u32 = 64;

/// The most items of a queue in a script or a schedule of version 1, and in a plan (docs/FORMATS.md).
pub const MOST_TEXT_ITEMS: u32 = 4_096;

/// Which number of a layout is out of its limits, the first of them in this order.
#[derive(Clone, Copy, Debug, PartialEq, Eq, Error)]
pub enum LayoutError {
    /// Not 1 to 65,536 items.
    #[error("items are 1 to 65536")]
    Items,
    /// Not 1 to 16 barriers.
    #[error("barriers are 1 to 16")]
    Barriers,
    /// Not 1 to 64 senders.
    #[error("senders are 1 to 64")]
    Senders,
}

/// How many items, barriers and senders a queue has. Its numbers are the items, then the barriers, then the stop item.
#[derive(Clone, Copy, Debug, PartialEq, Eq)]
pub struct Layout {
    /// 1 to 65,536.
    pub items: u32,
    /// 1 to 16.
    pub barriers: u32,
    /// 1 to 64.
    pub senders: u32,
    ghost in_limits: { AreInLimits items barriers senders },
}

impl Layout {
    /// A layout of 1 to 65,536 items, 1 to 16 barriers and 1 to 64 senders.
    ///
    /// # Errors
    /// `Items`, `Barriers` or `Senders`, the first in this order that is out of its limits.
    pub fn new(items: u32, barriers: u32, senders: u32) -> Result<Layout, LayoutError>
        ensures ok { IfOk result (λ layout. (layout.items ≡ items) × (layout.barriers ≡ barriers) × (layout.senders ≡ senders)) }
        ensures refused { MatchResult result (λ _. AreInLimits items barriers senders) (IsFirstOutOfLimits items barriers senders) }
    {
        if items < 1 || items > MOST_ITEMS {
            return Err(LayoutError::Items);
        }
        if barriers < 1 || barriers > MOST_BARRIERS {
            return Err(LayoutError::Barriers);
        }
        if senders < 1 || senders > MOST_SENDERS {
            return Err(LayoutError::Senders);
        }
        Ok(Layout {
            items,
            barriers,
            senders,
        })
    }
}
