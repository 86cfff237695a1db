//! The lines of a task's regions.
ghost use Rattle.std.specs.Prelude.{◌≡◌, ◌++◌, OnOk};
ghost use Rattle.site_account.specs.Account.{first_line, regions_text};

use crate::parts::{put_names, put_numbered};
use ease_base::{List, NoMemory, Text};
use region_split::Regions;
use task_ast::Array;

/// How many regions there are, and a line for each that writes an array first.
#[tactic(auto, using(std::proofs::Common::append_assoc), unfolding(crate::specs::Account::regions_text))]
pub fn put_regions(arrays: &List<Array>, regions: &Regions, out: &mut Text) -> Result<(), NoMemory>
    ensures { OnOk result (out.new ≡ out.old ++ regions_text arrays.now regions.now) }
{
    put_numbered(out, b"regions ", u64::from(regions.count()))?;
    out.push(b'\n')?;
    'regions: for region in 0..regions.count() {
        put_first(arrays, region, regions.first(region), out)?;
    }
    Ok(())
}

// The line of a region's first arrays, where it has any.
#[tactic(auto, using(std::proofs::Common::append_assoc))]
fn put_first(arrays: &List<Array>, region: u32, row: &[u32], out: &mut Text) -> Result<(), NoMemory>
    ensures { OnOk result (out.new ≡ out.old ++ first_line arrays.now region row.now) }
{
    if row.is_empty() {
        return Ok(());
    }
    put_numbered(out, b"first ", u64::from(region))?;
    put_names(out, arrays, row)?;
    out.push(b'\n')
}
