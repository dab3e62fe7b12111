//! The mains of the subcommands on streams that fail, and on streams that give and take little.
mod streams;
