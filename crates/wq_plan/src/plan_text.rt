//! Texts of plans: JSON objects.
ghost use Rattle.std.specs.Prelude.{◌≡◌, ◌≢◌, ◌↔◌, None, IsTrue, MatchResult, MatchOption};
ghost use Rattle.serde_json.specs.Find.{get};
ghost use Rattle.serde_json.specs.View.{view};
ghost use Rattle.wq_plan.specs.PlanText.{HasFour, HasKeys, IsPlan, IsNoPlan, SpellsPlan, whole_number_at as number_of};

use crate::plan::Plan;
use serde_json::Value;
use std::alloc::Global;
use thiserror::Error;
use wq_words::MOST_TEXT_ITEMS;

/// How many bytes a plan's text has at most.
pub const MOST_PLAN_BYTES: usize = 65_536;

const MOST_PLAN_QUEUES: u64 = 8;

const MOST_PLAN_WORKERS: u64 = 8;

const MOST_PLAN_SENDERS: u64 = 32;

/// Why a text is no plan, in the order in which this is tested.
#[derive(Clone, Copy, Debug, PartialEq, Eq, Error)]
pub enum PlanError {
    /// More than 65,536 bytes.
    #[error("plan: Size")]
    Size,
    /// No JSON text.
    #[error("plan: Json")]
    Json,
    /// No object with exactly the keys `queues`, `workers`, `senders` and `own`.
    #[error("plan: Keys")]
    Keys,
    /// A value that is no whole number from 0 up, or is out of its limits.
    #[error("plan: Limits")]
    Limits,
    /// Want of memory.
    #[error("memory")]
    Memory,
}

// Whether it is an object of four members.
#[tactic(auto, using(crate::proofs::Members::member_count_members_view))]
fn has_four(value: &Value) -> bool
    ensures { IsTrue result ↔ HasFour (view value.now) }
{
    match value.as_object() {
        Some(members) => members.len() == 4,
        None => false,
    }
}

// Whether it has a member of this name.
fn has(value: &Value, key: &str) -> bool
    ensures { IsTrue result ↔ (get key.now (view value.now) ≢ None) }
{
    value.get(key).is_some()
}

// Whether it is an object of just the four members of a plan.
fn has_keys(value: &Value) -> bool
    ensures { IsTrue result ↔ HasKeys (view value.now) }
{
    if !has(value, "queues") || !has(value, "workers") {
        return false;
    }
    if !has(value, "senders") || !has(value, "own") {
        return false;
    }
    has_four(value)
}

// The whole number at a key.
fn whole_number(value: &Value, key: &str) -> Option<u64>
    ensures { result ≡ number_of key.now (view value.now) }
{
    value.get(key).and_then(Value::as_u64)
}

// The plan with these values.
fn plan_of(value: &Value) -> Option<Plan>
    ensures { MatchOption result ((plan : Plan) → ¬ IsPlan (view value.now) plan) (IsPlan (view value.now)) }
{
    let queues = whole_number(value, "queues")?;
    let workers = whole_number(value, "workers")?;
    let senders = whole_number(value, "senders")?;
    let own = whole_number(value, "own")?;
    // Over all senders.
    let most_items = u64::from(MOST_TEXT_ITEMS);
    if queues < 1 || queues > MOST_PLAN_QUEUES || workers < 1 || workers > MOST_PLAN_WORKERS {
        return None;
    }
    if senders < 1 || senders > MOST_PLAN_SENDERS || own < 1 || own > most_items {
        return None;
    }
    if senders * own > most_items {
        return None;
    }
    Some(Plan {
        queues: queues as u32,
        workers: workers as u32,
        senders: senders as u32,
        own: own as u32,
    })
}

/// The plan that a text spells, or its first refusal.
///
/// # Errors
/// The first thing that is wrong with the text, or that memory was refused.
pub fn read_plan(alloc: Global, text: &[u8]) -> Result<Plan, PlanError>
    ensures exact { MatchResult result (SpellsPlan text.now) (IsNoPlan text.now) }
{
    if text.len() > MOST_PLAN_BYTES {
        return Err(PlanError::Size);
    }
    let value = match Value::from_slice(alloc, text) {
        Ok(value) => value,
        Err(error) if error.is_memory() => return Err(PlanError::Memory),
        Err(_) => return Err(PlanError::Json),
    };
    if !has_keys(&value) {
        return Err(PlanError::Keys);
    }
    match plan_of(&value) {
        Some(plan) => Ok(plan),
        None => Err(PlanError::Limits),
    }
}
