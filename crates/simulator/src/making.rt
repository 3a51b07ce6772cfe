// A network is made from a table.
ghost use Rattle.std.specs.Prelude.{◌≡◌, ◌+◌, ◌-◌, ◌*◌, ◌<◌, ◌≤◌, false, length, IfOk, vec_len, MatchOption};
ghost use Rattle.simulator.specs.declared.site.NetworkFault.TheVariants.{Table, Memory, Outside};
ghost use Rattle.simulator.specs.Meaning.{meaning, meanings};
ghost use Rattle.simulator.specs.Fresh.{fresh_site, fresh_sites, bits_in, lies_in, InsideBelow, LowestOutside, Makes};

use crate::network::Simulator;
use crate::path::Path;
use crate::site::{NetworkFault, Phase, Setting, Site, Stuck};
use refusal::TableFault;
use std::alloc::{AllocError, Global};
use table::{Record, check_table};

// Written out, since clauses read `from_gives`, which a derive would not have.
impl From<TableFault> for NetworkFault {
    ghost from_gives = { λ f r. r ≡ Table f };

    fn from(fault: TableFault) -> NetworkFault {
        NetworkFault::Table(fault)
    }
}

impl From<AllocError> for NetworkFault {
    ghost from_gives = { λ _ r. r ≡ Memory };

    fn from(_e: AllocError) -> NetworkFault {
        NetworkFault::Memory
    }
}

fn lies_in(fault: Option<Stuck>, length: u16) -> bool
    ensures { result ≡ lies_in fault length }
{
    fault.is_none_or(|stuck| stuck.cell < usize::from(length))
}

// The index of the first record whose stuck cell lies outside its row.
fn first_outside(records: &[Record], settings: &[Setting]) -> Option<usize>
    requires { length settings.now ≡ length records.now }
    ensures { MatchOption result (InsideBelow records.now settings.now (length records.now)) (λ i. LowestOutside records.now settings.now (i + 1)) }
{
    records
        .iter()
        .zip(settings)
        .position(|(record, setting)| !lies_in(setting.fault, record.length))
}

// How many bits all instruments have.
fn count_bits(records: &[Record]) -> usize
    requires { length records.now ≤ 16382 }
    ensures { result ≡ bits_in records.now }
{
    records
        .iter()
        .map(|record| usize::from(record.length))
        .sum()
}

fn make_site(heap: Global, sib: Record, setting: Setting, held: &[bool]) -> Result<Site, AllocError>
    requires { length held.now ≡ sib.length }
    ensures { IfOk result (λ s. (meaning s ≡ fresh_site sib setting held.now) × (vec_len s.row ≡ sib.length)) }
{
    let row = vec![in heap; false; usize::from(sib.length)]?;
    let held = Vec::from_slice(heap, held)?;
    Ok(Site {
        kind: sib.kind,
        depth: sib.depth,
        offer: setting.offer,
        fault: setting.fault,
        latch: false,
        cell: false,
        row,
        held,
    })
}

fn make_sites(
    heap: Global,
    records: &[Record],
    settings: &[Setting],
    held: &[bool],
) -> Result<Vec<Site>, AllocError>
    requires { (length settings.now ≡ length records.now) × (length held.now ≡ bits_in records.now) }
    ensures { IfOk result (λ v. (meanings v.items ≡ fresh_sites records.now settings.now held.now) × (vec_len v ≡ length records.now)) }
{
    let mut sites = Vec::with_capacity(heap, records.len())?;
    let mut rest = held;
    for (record, setting) in records.iter().zip(settings) {
        let (bits, others) = rest.split_at(usize::from(record.length));
        sites.push_reserved(make_site(heap, *record, *setting, bits)?);
        rest = others;
    }
    sites.reverse();
    Ok(sites)
}

impl Simulator {
    // A network with the table's SIBs: a setting for each record, and the bits that instruments hold at first, those of the
    // lowest number first. (Lists side by side, and not pairs: the table is one slice for the translator too, and each list has a
    // refusal of its own.)
    pub fn new(
        heap: Global,
        records: &[Record],
        settings: &[Setting],
        held: &[bool],
    ) -> Result<Simulator, NetworkFault>
        ensures { Makes records.now settings.now held.now result }
    {
        check_table(records)?;
        if settings.len() != records.len() {
            return Err(NetworkFault::Settings);
        }
        if let Some(i) = first_outside(records, settings) {
            return Err(NetworkFault::Outside { number: i + 1 });
        }
        let bits = count_bits(records);
        if held.len() != bits {
            return Err(NetworkFault::Held);
        }
        let sites = make_sites(heap, records, settings, held)?;
        let path = Path::new(heap, bits + records.len(), records.len())?;
        Ok(Simulator {
            sites,
            path,
            phase: Phase::Rest,
            cable_out: false,
            lost: 0,
        })
    }
}
