// What a driver is told of a typed sheet: every arc and the two counts, or why the sheet is refused.
#![tactic(auto)]

ghost use Rattle.std.specs.Prelude.{◌≡◌, ◌++◌, IfOk, string_bytes, OnOk};
ghost use Rattle.report.specs.Reports.{arcs_text, counts_text, refusal_text, report_of};

use sheet::places::places;
use sheet::read::read;
use std::alloc::{AllocError, Global};
use std::fmt;
use terms::arc::Arc;
use terms::refusal::Refusal;

// One line for each arc, under its number.
fn list_arcs(out: &mut String, arcs: &[Arc]) -> Result<(), AllocError>
    ensures { OnOk result (string_bytes out.new ≡ string_bytes out.old ++ arcs_text 0 arcs.now) }
{
    for (number, arc) in arcs.iter().enumerate() {
        let Arc { tail, head, least } = *arc;
        write!(
            out,
            "arc {number}: from {tail} to {head}, least cost {least}\n"
        )?;
    }
    Ok(())
}

fn count(out: &mut String, arcs: &[Arc]) -> Result<(), AllocError>
    ensures { OnOk result (string_bytes out.new ≡ string_bytes out.old ++ counts_text arcs.now) }
{
    let places = places(arcs);
    let arcs = arcs.len();
    write!(out, "{places} places, {arcs} arcs\n")
}

fn refuse(out: &mut String, refusal: Refusal) -> Result<(), AllocError>
    ensures { OnOk result (string_bytes out.new ≡ string_bytes out.old ++ refusal_text refusal) }
{
    let number = refusal.number();
    write!(out, "refused {number}: {refusal}\n")
}

// The report on the sheet that `bytes` begin with, read by way of `table`. The error is want of memory.
#[tactic(auto, unfolding(crate::specs::Reports::report_of))]
pub fn report(alloc: Global, bytes: &[u8], table: &mut [Arc]) -> Result<String, fmt::Error>
    ensures { IfOk result (λ text. string_bytes text ≡ report_of bytes.now table.old) }
{
    let mut out = String::new(alloc);
    match read(bytes, table) {
        Ok(sheet) => {
            let arcs = &table[..sheet.arcs];
            list_arcs(&mut out, arcs)?;
            count(&mut out, arcs)?;
        }
        Err(refusal) => refuse(&mut out, refusal)?,
    }
    Ok(out)
}
