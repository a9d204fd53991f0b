// Builds grids and searches them, and prints what comes out: the searches worked by hand, and many more against linear search.
#![tactic(auto)]

mod drawn;
mod edges;
mod large;
mod linear;
mod reuse;
mod tell;
mod worked;

fn main(rt: HostRuntime) -> anyhow::Result<()> {
    worked::run(&rt)?;
    edges::run_single(&rt)?;
    edges::run_pair(&rt)?;
    reuse::run(&rt)?;
    large::run(&rt)
}
