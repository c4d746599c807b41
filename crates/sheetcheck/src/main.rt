// Reads a sheet from standard input and prints what it says, arc by arc, or where and why it is faulty.
#![tactic(auto)]

use report::report;
use std::io::Read;
use terms::arc::Arc;

// As many arcs as any ground may have.
const ARCS: usize = 131_072;

fn run(rt: &HostRuntime) -> anyhow::Result<()> {
    let heap = rt.alloc();
    let mut input = Vec::new(heap);
    rt.stdin().read_to_end(&mut input)?;
    let mut table = vec![in heap; Arc::default(); ARCS]?;
    let text = report(heap, &input, &mut table)?;
    print!(rt; "{text}")?;
    Ok(())
}

fn main(rt: HostRuntime) -> anyhow::Result<()> {
    run(&rt)
}
