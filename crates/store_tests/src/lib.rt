//! Tests of kc_store, kc_engine, kc_session, kc_intake and kc_service.
#![tactic(auto)]

#[cfg(test)]
mod tests;
