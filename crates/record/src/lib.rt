// Stripe records: reading them. Their layout, which writing shares, is `specs/Layout.antt`.
#![tactic(auto)]

mod columns;
pub mod read;
