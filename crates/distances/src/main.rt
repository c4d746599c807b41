// Prints how far each place of the sheet on standard input is from place 0, or why it cannot be said.
#![tactic(auto)]

use queue::entry::Entry;
use sheet::places::places;
use sheet::read::read;
use std::io::Read;
use survey::survey::survey;
use survey::working::Working;
use terms::arc::Arc;
use terms::refusal::Refusal;

// As many places and arcs as any ground may have.
const PLACES: usize = 16_384;

const ARCS: usize = 131_072;

// The arcs of the sheet, which are read into the table.
fn typed<'t>(input: &[u8], table: &'t mut [Arc]) -> Result<&'t [Arc], Refusal> {
    let sheet = read(input, table)?;
    Ok(&table[..sheet.arcs])
}

// Surveys the arcs from place 0 into the heights; answers how many places there are.
fn measure(
    arcs: Result<&[Arc], Refusal>,
    heights: &mut [u32],
    work: &mut Working,
) -> Result<u32, Refusal> {
    let arcs = arcs?;
    // more places than the heights hold are all the same to Survey
    let n = u32::try_from(places(arcs)).unwrap_or(u32::MAX);
    survey(0, n, arcs, heights, work)?;
    Ok(n)
}

fn run(rt: &HostRuntime) -> anyhow::Result<()> {
    let heap = rt.alloc();
    let mut input = Vec::new(heap);
    rt.stdin().read_to_end(&mut input)?;
    let mut table = vec![in heap; Arc::default(); ARCS]?;
    let mut heights = vec![in heap; 0u32; PLACES]?;
    let arcs = typed(&input, &mut table);
    // a refused sheet needs no working table
    let (n, m) = if arcs.is_ok() { (PLACES, ARCS) } else { (0, 0) };
    let mut ends = vec![in heap; 0u32; n]?;
    let mut order = vec![in heap; 0u32; m]?;
    let mut sums = vec![in heap; 0u32; n]?;
    let mut queue = vec![in heap; Entry::free(); n]?;
    let mut work = Working {
        ends: &mut ends,
        order: &mut order,
        sums: &mut sums,
        queue: &mut queue,
    };
    match measure(arcs, &mut heights, &mut work) {
        Ok(n) => {
            for (place, sum) in heights.iter().take(n as usize).enumerate() {
                println!(rt; "place {place}: {sum}")?;
            }
        }
        Err(refusal) => println!(rt; "refused {}: {refusal}", refusal.number())?,
    }
    Ok(())
}

fn main(rt: HostRuntime) -> anyhow::Result<()> {
    run(&rt)
}
