//! Services in the manner of the guide: a fan-out of replicas with retries, a bounded map of 10,000 items, a supervisor of a
//! periodic job, a search over shards, a pipeline, a walk of a tree, and a server.
#![tactic(auto)]

mod fan_out;
mod many_items;
mod pipeline;
mod search;
mod server;
mod supervised;
mod walk;

fn main(rt: HostRuntime) -> std::io::Result<()> {
    fan_out::show(&rt, rt)?;
    many_items::show(&rt, rt)?;
    supervised::show(&rt, rt)?;
    search::show(&rt, rt)?;
    pipeline::show(&rt, rt)?;
    walk::show(&rt, rt)?;
    server::show(&rt, rt)
}
