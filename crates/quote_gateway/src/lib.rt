//! The quote gateway, a service on the runtime: one request is a plan of offers, each is asked by a job on
//! a thread of its own, and the answer is one that the plan allows, whatever the schedule.
#![tactic(auto)]

mod faults;
mod labels;
mod offer_jobs;
mod requests;
mod services;
mod serving;
mod until;

pub use faults::GatewayFault;
pub use offer_jobs::{Late, LateJob, OfferJob, jobs_of, late_jobs_of};
pub use quote_plan::{
    Answer, Mode, Offer, Plan, PlanFault, PlanReader, PlanWhy, Quote, Quotes, read_plan,
};
pub use services::{Served, main_context, serve, serve_by};
pub use serving::{serve_in, serve_in_by};
