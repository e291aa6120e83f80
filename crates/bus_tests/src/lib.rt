// The bus crate on examples: frame lengths that are published elsewhere, worked triggers, and the borders of each refusal.
#![tactic(auto)]

#[cfg(test)]
mod frames;
#[cfg(test)]
mod triggers;
