// The operations, each with the contract that the demands start from (specs/Calls.antt). The demands are theorems about every such call (specs/), with their
// proofs (proofs/).
#![tactic(auto)]

ghost use Rattle.demands.specs.Calls.{PackCall, CheckCall, UnpackCall, ReadCall, WriteCall, ConvertCall, DropCall, SettingsCall};

use conform::{Fault as CheckFault, check_track};
use settings::Settings;
use table::Sizes;
use tx3g_convert::{CueList as StockList, Fault as StockFault};
use unpack::CueList;
use verdict::Refusal;
use vtt_read::CueList as FileList;
use vtt_write::Fault as FileFault;

// Packing.
pub fn pack_list(
    scale: u32,
    t: u32,
    records: &[u8],
    pool: &[u8],
    table: &mut [u8],
    samples: &mut [u8],
) -> Result<Sizes, Refusal>
    ensures { PackCall scale t records.now pool.now table.old samples.old table.new samples.new result }
{
    pack::pack(scale, t, records, pool, &mut *table, &mut *samples)
}

// The check of a track against a list.
pub fn check_list(
    scale: u32,
    t: u32,
    records: &[u8],
    pool: &[u8],
    table: &[u8],
    samples: &[u8],
) -> Result<(), CheckFault>
    ensures { CheckCall scale t records.now pool.now table.now samples.now result }
{
    check_track(scale, t, records, pool, table, samples)
}

// Unpacking.
pub fn unpack_track(
    scale: u32,
    table: &[u8],
    samples: &[u8],
    records: &mut [u8],
    pool: &mut [u8],
) -> Result<CueList, Refusal>
    ensures { UnpackCall scale table.now samples.now records.old pool.old records.new pool.new result }
{
    unpack::unpack(scale, table, samples, &mut *records, &mut *pool)
}

// Reading a file.
pub fn read_file(file: &[u8], records: &mut [u8], pool: &mut [u8]) -> Result<FileList, Refusal>
    ensures { ReadCall file.now records.old pool.old records.new pool.new result }
{
    vtt_read::read(file, &mut *records, &mut *pool)
}

// Writing a file.
pub fn write_file(
    configuration: &[u8],
    records: &[u8],
    pool: &[u8],
    file: &mut [u8],
) -> Result<usize, FileFault>
    ensures { WriteCall configuration.now records.now pool.now file.old file.new result }
{
    vtt_write::write(configuration, records, pool, &mut *file)
}

// Converting a `tx3g` track.
pub fn convert_track(
    scale: u32,
    entry: &[u8],
    table: &[u8],
    samples: &[u8],
    records: &mut [u8],
    pool: &mut [u8],
) -> Result<StockList, StockFault>
    ensures { ConvertCall scale entry.now table.now samples.now records.old pool.old records.new pool.new result }
{
    tx3g_convert::convert(scale, entry, table, samples, &mut *records, &mut *pool)
}

// Dropping samples of duration 0.
pub fn drop_samples(
    table: &[u8],
    samples: &[u8],
    rows: &mut [u8],
    content: &mut [u8],
) -> Result<Sizes, Refusal>
    ensures { DropCall table.now samples.now rows.old content.old rows.new content.new result }
{
    table_lasting::drop_zero_durations(table, samples, &mut *rows, &mut *content)
}

// Writing settings.
pub fn write_settings(x: Settings, region: &[u8], text: &mut [u8]) -> Result<usize, Refusal>
    ensures { SettingsCall x region.now text.old text.new result }
{
    settings_write::write_settings(x, region, &mut *text)
}
