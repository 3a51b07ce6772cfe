// Single bits, rows and SIBs of a pass.
// A row of bits and the place in it are two parameters: the place goes on by the table's marks, also where nothing is shifted.
ghost use Rattle.std.specs.Prelude.{◌≡◌, ℕ, ◌+◌, Bool, true, false, replicate};
ghost use Rattle.bits.specs.Order.{row_bits};
ghost use Rattle.bits.specs.Place.{flat};
ghost use Rattle.scan.specs.Network.{scan as in-scan};
ghost use Rattle.shifting.specs.Orders.{bits_from};
ghost use Rattle.shifting.specs.Feeding.{Feeds, Reads, Room, VisitShifts, visit_bits, visit_mask, kept_cells, cells_of};

use bits::{BitPlace, store_bit, take_bit};
use plan::{Row, Visit};
use refusal::ScanFault;
use scan::Scan;

// Shifts the next bits of `sent` into an instrument. (`_k` counts the turns for the proof. The place goes on by itself, with no
// division; so too below.)
fn shift_write<S: Scan>(
    scan: &mut S,
    cells: u16,
    sent: &[u8],
    from: BitPlace,
) -> Result<(), ScanFault>
    ensures did { S.valid scan.old → (S.network scan.old).phase ≡ in-scan → Room from cells → Feeds S.losses (S.network scan.old) (bits_from (row_bits sent.now) (flat from) cells) result (S.network scan.new) }
    ensures kept { S.valid scan.old → S.valid scan.new }
{
    let mut at = from;
    for _k in 0..cells {
        let bit = take_bit(sent, at).unwrap_or(false);
        let _ = scan.shift(bit)?;
        at = at.next();
    }
    Ok(())
}

// Shifts ones into an instrument, and what comes out into `body`. No twin of `shift_write`: bits go the other way.
fn shift_read<S: Scan>(
    scan: &mut S,
    cells: u16,
    body: &mut [u8],
    to: BitPlace,
) -> Result<(), ScanFault>
    ensures did { S.valid scan.old → (S.network scan.old).phase ≡ in-scan → Room to cells → Reads S.losses (S.network scan.old) (replicate cells true) (flat to) (row_bits body.old) result (S.network scan.new) (row_bits body.new) }
    ensures kept { S.valid scan.old → S.valid scan.new }
{
    let mut at = to;
    for _k in 0..cells {
        let bit = scan.shift(true)?;
        let _ = store_bit(body, at, bit);
        at = at.next();
    }
    Ok(())
}

// Shifts a SIB's own bit and, where its row is on the path, the row; answers where the next kept bit goes.
pub fn shift_sib<S: Scan>(
    scan: &mut S,
    visit: Visit,
    sent: &[u8],
    from: BitPlace,
    body: &mut [u8],
    to: BitPlace,
) -> Result<BitPlace, ScanFault>
    ensures did { S.valid scan.old → (S.network scan.old).phase ≡ in-scan → Room from (cells_of visit.row) → Room to (cells_of visit.row) → VisitShifts S.losses (S.network scan.old) (visit_bits visit (row_bits sent.now) (flat from)) (visit_mask visit) (kept_cells visit.row) to (row_bits body.old) result (S.network scan.new) (row_bits body.new) }
    ensures kept { S.valid scan.old → S.valid scan.new }
{
    let _ = scan.shift(visit.bit)?;
    match visit.row {
        Row::Hidden => Ok(to),
        Row::Write { cells } => {
            shift_write(scan, cells, sent, from)?;
            Ok(to)
        }
        Row::Read { cells } => {
            shift_read(scan, cells, body, to)?;
            Ok(to.skip(cells))
        }
    }
}
