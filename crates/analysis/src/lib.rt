// The analysis filter: `silk_LPC_analysis_filter` of LPC_analysis_filter.rs.
#![tactic(auto)]

pub mod lpc_analysis_filter;
