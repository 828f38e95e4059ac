//! What boxrun prints for a pattern text.
#![tactic(auto)]

ghost use Rattle.std.specs.Prelude.{◌≡◌, ◌<◌, ◌≤◌, length, IfOk, Err, string_bytes, codes};
ghost use Rattle.report.specs.declared.Stop.TheVariants.{TooBig};

use cells::box_cells;
use geometry::{Face, Facet, Point};
use part::{NotKept, judge};
use pattern::Reader;
use refusals::{BoxSide, Refusal};
use rows::runs;
use shapes::FaceList;
use std::alloc::{AllocError, Global};

mod cells;
pub mod part;

/// The most bytes that a text may have.
pub const MOST_BYTES: usize = 16_384;

/// The largest side that is taken.
const MOST_SIDE: usize = 32;

/// How many points, and how many faces, a part may have.
const TRAY: usize = 256;

/// Why a report ends before its text does.
#[derive(Debug, Drop)]
enum Stop {
    /// The text is too long, or the side of its box is too large.
    TooBig,
    /// The text is refused.
    Refused(Refusal),
    /// There was no memory for the report.
    OutOfMemory(AllocError),
}

impl From<Refusal> for Stop {
    fn from(why: Refusal) -> Stop {
        Stop::Refused(why)
    }
}

impl From<AllocError> for Stop {
    fn from(why: AllocError) -> Stop {
        Stop::OutOfMemory(why)
    }
}

/// The report on a pattern text.
pub fn report(heap: Global, text: &[u8]) -> Result<String, AllocError>
    ensures { IfOk result (λ s. 16384 < length text.now → string_bytes s ≡ codes "too big\n") }
{
    let mut out = String::new(heap);
    match report_text(text, &mut out) {
        Ok(()) => {}
        Err(Stop::TooBig) => out.push_str("too big\n")?,
        Err(Stop::Refused(why)) => {
            writeln!(out, "text refused {} line {}", why.number(), why.place())?
        }
        Err(Stop::OutOfMemory(why)) => return Err(why),
    }
    Ok(out)
}

/// The side of the box, a line for each part, and the solid cells; also those of the parts before a refusal.
fn report_text(text: &[u8], out: &mut String) -> Result<(), Stop>
    ensures { 16384 < length text.now → (result ≡ Err TooBig) × (out.new ≡ out.old) }
{
    if text.len() > MOST_BYTES {
        return Err(Stop::TooBig);
    }
    let mut reader = Reader::new(text);
    let side = reader.side()?;
    if side.cells() > MOST_SIDE {
        return Err(Stop::TooBig);
    }
    writeln!(out, "side {}", side.cells())?;
    let mut kept = Vec::new(*out.allocator());
    let read = report_parts(&mut reader, &mut kept, out);
    report_runs(kept.as_slice(), side, out)?;
    read
}

/// A line for each part; the triangles of the parts that close are kept.
fn report_parts(reader: &mut Reader, kept: &mut Vec<Facet>, out: &mut String) -> Result<(), Stop> {
    let mut points = [Point::default(); TRAY];
    let mut faces = [Face::default(); TRAY];
    // each part has a line of its own, so there are fewer parts than bytes
    for number in 1..MOST_BYTES {
        let Some(counts) = reader.next_part(&mut points, &mut faces)? else {
            break;
        };
        let part = FaceList {
            points: &points[..counts.points],
            faces: &faces[..counts.faces],
        };
        report_part(number, part, kept, out)?;
    }
    Ok(())
}

/// The line of a part.
fn report_part(
    number: usize,
    part: FaceList,
    kept: &mut Vec<Facet>,
    out: &mut String,
) -> Result<(), AllocError> {
    write!(
        out,
        "part {number}: {} points, {} faces, ",
        part.points.len(),
        part.faces.len()
    )?;
    match judge(*out.allocator(), &part, kept) {
        Ok(()) => writeln!(out, "closed"),
        Err(NotKept::Flawed(flaw)) => writeln!(out, "{flaw}"),
        Err(NotKept::OutOfMemory(why)) => Err(why),
    }
}

/// A line for each of the longest runs of solid cells by cell number, and one with the count of solid cells.
fn report_runs(facets: &[Facet], side: BoxSide, out: &mut String) -> Result<(), AllocError> {
    let cells = box_cells(*out.allocator(), facets, side)?;
    for run in runs(cells.as_slice()) {
        writeln!(out, "{} {}", run.start, run.end - run.start)?;
    }
    let solid = cells.iter().filter(|solid| **solid).count();
    writeln!(out, "solid {solid}")
}
