// Reading a WebVTT file: its cues as dense records and pool. One pass over the file judges it and keeps a row for each cue; the rows are then written.
#![tactic(auto)]

ghost use Rattle.std.specs.Prelude.{◌≡◌, ◌+◌, ◌≤◌, ◌<◌, length, drop};
ghost use Rattle.base.specs.Choice.{pick};
ghost use Rattle.base.specs.Over.{over};
ghost use Rattle.records_write.specs.Records.{pool_to};
ghost use Rattle.vtt_lines.specs.Lines.{joined};
ghost use Rattle.vtt_lines.specs.Cursor.{ScannedTo};
ghost use Rattle.vtt_blocks.specs.Found.{filled_at, CueAt};
ghost use Rattle.vtt_read.specs.Reading.{unmarked, file_cues, file_records, file_pool, read_room, roomed, read_of, out_of};
ghost use Rattle.vtt_read.specs.Steps.{list_of, moved_to, content_at, row_of, Stands, RowAt, Rows, RowsOf, TurnIs, BeginIs, EndIs, Ready, RecordsOn, PoolOn};

use boxes::Part;
use cues::{judge_content, long_texts};
use records_write::put_cue;
use rows::{Row, put_row, row_at};
use verdict::{Reason, Refusal, Verdict};
use vtt_blocks::{Found, Place, find_block, opens_with};
use vtt_lines::{Scanned, gather, line_from, pass_empty, pass_lines, scan};

// A list as it is written: how many cues, and the lengths of records and pool in bytes.
#[derive(Clone, Copy)]
pub struct CueList {
    pub cues: usize,
    pub records: usize,
    pub pool: usize,
}

// Where reading stands: the place and number of a line, the number of cues before it, the last one's start, and the bytes of their texts.
#[derive(Clone, Copy)]
struct State {
    at: usize,
    line: usize,
    count: usize,
    before: u32,
    size: usize,
}

// The length of the byte order mark.
fn mark_length(s: &[u8]) -> usize
    ensures { (drop result s.now ≡ unmarked s.now) × (result ≤ length s.now) }
{
    match s {
        [0xEF, 0xBB, 0xBF, ..] => 3,
        _ => 0,
    }
}

// Judges the header.
fn judge_header(s: &[u8]) -> Result<State, Refusal>
    ensures { BeginIs s.now result }
{
    let at = mark_length(s);
    let first = line_from(s, at, 1);
    let end = first.end;
    if !opens_with(&s[at..end], b"WEBVTT") {
        return Err(Reason::Malformed.fault_at(1));
    }
    let p = pass_lines(s, at, 1);
    if p.arrow {
        return Err(Reason::Malformed.fault_at(1));
    }
    Ok(State {
        at: p.at,
        line: p.line,
        count: 0,
        before: 0,
        size: 0,
    })
}

// The state at another place.
fn moved(state: State, at: usize, line: usize) -> State
    ensures { result ≡ moved_to state at line }
{
    State { at, line, ..state }
}

// 1 for a payload that is taken where it stands, else 0.
fn mark_of(plain: bool) -> usize
    ensures { result ≡ pick plain 1 0 }
{
    usize::from(plain)
}

// The row of a cue whose block begins at `at`, and whose payload ends at `end` if it is plain.
fn row_of(at: usize, c: Place, end: usize, plain: bool) -> Row
    ensures { result ≡ row_of at c end plain }
{
    let identifier = Part {
        from: at,
        end: c.identifier,
    };
    let settings = Part {
        from: c.from,
        end: c.to,
    };
    let payload = Part {
        from: c.payload,
        end,
    };
    Row {
        id: mark_of(plain),
        start: c.start as usize,
        end: c.end as usize,
        identifier,
        settings,
        payload,
    }
}

// The state behind empty lines.
fn skipped(s: &[u8], state: State) -> State
    requires { Stands s.now state }
    ensures { Stands s.now result × (state.at ≤ result.at) × (result.count ≡ state.count) }
{
    let c = pass_empty(s, state.at, state.line);
    moved(state, c.at, c.line)
}

// Judges the content of a cue. Its payload is taken where it stands, or gathered in the buffer.
fn judge_found(s: &[u8], state: State, c: Place, g: Scanned, buf: &mut [u8]) -> Verdict
    requires { CueAt s.now state.at state.line c × ScannedTo s.now c.payload g.length g.end g.plain × (g.length ≤ 4095) × (length buf.old ≡ 4096) }
    ensures { result ≡ content_at s.now state.before state.at c }
{
    let before = state.before;
    let t = 359999999;
    if g.plain {
        return judge_content(
            1000,
            t,
            before,
            c.start,
            c.end,
            &s[state.at..c.identifier],
            &s[c.from..c.to],
            &s[c.payload..g.end],
            c.line,
        );
    }
    let h = gather(s, c.payload, c.line + 1, &mut *buf);
    judge_content(
        1000,
        t,
        before,
        c.start,
        c.end,
        &s[state.at..c.identifier],
        &s[c.from..c.to],
        &buf[0..h.length],
        c.line,
    )
}

// Judges the cue at the state and keeps its row.
fn judge_cue(
    s: &[u8],
    state: State,
    c: Place,
    buf: &mut [u8],
    tab: &mut [usize],
) -> Result<State, Refusal>
    requires { Stands s.now state × CueAt s.now state.at state.line c × (length buf.old ≡ 4096) × Rows s.now state.count tab.old }
    ensures { TurnIs s.now state.at tab.new result }
{
    let line = c.line;
    if 1024 <= state.count {
        return Err(Reason::PastLimit.fault_at(line));
    }
    let at = state.at;
    let identifier = c.identifier;
    let from = c.from;
    let to = c.to;
    let g = scan(s, c.payload, line + 1);
    let n = g.length;
    if long_texts(identifier - at, to - from, n) {
        return Err(Reason::PastLimit.fault_at(line));
    }
    judge_found(s, state, c, g, &mut *buf)?;
    put_row(&mut *tab, state.count, row_of(at, c, g.end, g.plain));
    Ok(State {
        at: g.at,
        line: g.line,
        count: state.count + 1,
        before: c.start,
        size: state.size + (identifier - at) + (to - from) + n,
    })
}

// Judges what stands at the state.
fn judge_next(s: &[u8], state: State, buf: &mut [u8], tab: &mut [usize]) -> Result<State, Refusal>
    requires { Stands s.now state × (state.at < length s.now) × (length buf.old ≡ 4096) × Rows s.now state.count tab.old }
    ensures { TurnIs s.now state.at tab.new result }
{
    match find_block(s, state.at, state.line) {
        Found::Empty { at, line } => Ok(moved(state, at, line)),
        Found::Cue(c) => judge_cue(s, state, c, &mut *buf, &mut *tab),
        Found::Untimed { line } => Err(Reason::Malformed.fault_at(line)),
        Found::Note { at, line } => Ok(moved(state, at, line)),
        Found::Style => Err(Reason::StyleBlock.fault_at(state.line)),
        Found::Other => Err(Reason::Malformed.fault_at(state.line)),
    }
}

// Judges what stands from the state on.
fn judge_rest(s: &[u8], start: State, buf: &mut [u8], tab: &mut [usize]) -> Result<State, Refusal>
    requires { Stands s.now start × (start.count ≡ 0) × (length buf.old ≡ 4096) × (length tab.old ≡ 9216) }
    ensures { EndIs s.now tab.new result }
{
    let mut state = skipped(s, start);
    while state.at < s.len() {
        state = skipped(s, judge_next(s, state, &mut *buf, &mut *tab)?);
    }
    Ok(state)
}

// The room for the cues from the state on, and a row for each.
fn measure(s: &[u8], start: State, buf: &mut [u8], tab: &mut [usize]) -> Result<CueList, Refusal>
    requires { Stands s.now start × (start.count ≡ 0) × (length buf.old ≡ 4096) × (length tab.old ≡ 9216) }
    ensures { (result ≡ read_room s.now) × RowsOf s.now tab.new result }
{
    let last = judge_rest(s, start, &mut *buf, &mut *tab)?;
    Ok(CueList {
        cues: last.count,
        records: last.count * 24,
        pool: last.size,
    })
}

// Writes record k and its texts by its row, the payload from any lent bytes; gives the place behind them in the pool.
fn write_texts(
    s: &[u8],
    row: Row,
    k: usize,
    size: usize,
    payload: &[u8],
    records: &mut [u8],
    pool: &mut [u8],
) -> usize
    requires { RowAt s.now row k × (size ≡ length (pool_to (list_of s.now) k)) × (payload.now ≡ joined (filled_at s.now row.payload.from)) × Ready s.now records.old pool.old }
    ensures { (result ≡ length (pool_to (list_of s.now) (k + 1))) × RecordsOn s.now k records.old records.new × PoolOn s.now k pool.old pool.new }
{
    let identifier = row.identifier;
    let settings = row.settings;
    put_cue(
        &mut *records,
        k,
        k as u32,
        row.start as u32,
        row.end as u32,
        &mut *pool,
        size,
        &s[identifier.from..identifier.end],
        &s[settings.from..settings.end],
        payload,
    )
}

// Writes record k and its texts by its row. The payload is taken where it stands, or gathered in the buffer.
fn write_row(
    s: &[u8],
    row: Row,
    k: usize,
    size: usize,
    buf: &mut [u8],
    records: &mut [u8],
    pool: &mut [u8],
) -> usize
    requires { RowAt s.now row k × (size ≡ length (pool_to (list_of s.now) k)) × (length buf.old ≡ 4096) × Ready s.now records.old pool.old }
    ensures { (result ≡ length (pool_to (list_of s.now) (k + 1))) × RecordsOn s.now k records.old records.new × PoolOn s.now k pool.old pool.new }
{
    let payload = row.payload;
    if row.id == 1 {
        return write_texts(
            s,
            row,
            k,
            size,
            &s[payload.from..payload.end],
            &mut *records,
            &mut *pool,
        );
    }
    let g = gather(s, payload.from, 0, &mut *buf);
    write_texts(
        s,
        row,
        k,
        size,
        &buf[0..g.length],
        &mut *records,
        &mut *pool,
    )
}

// Writes n cues from their rows.
fn write_rows(
    s: &[u8],
    tab: &[usize],
    n: usize,
    buf: &mut [u8],
    records: &mut [u8],
    pool: &mut [u8],
)
    requires { Rows s.now n tab.now × (n ≡ length (file_cues s.now)) × (length buf.old ≡ 4096) × Ready s.now records.old pool.old }
    ensures { (records.new ≡ over (file_records s.now) records.old) × (pool.new ≡ over (file_pool s.now) pool.old) }
{
    let mut size = 0;
    for k in 0..n {
        let row = row_at(tab, k);
        size = write_row(s, row, k, size, &mut *buf, &mut *records, &mut *pool);
    }
}

// Reads the cues from the state on, where there is room.
fn write_list(
    s: &[u8],
    start: State,
    records: &mut [u8],
    pool: &mut [u8],
) -> Result<CueList, Refusal>
    requires { Stands s.now start × (start.count ≡ 0) }
    ensures { (result ≡ read_of s.now (length records.old) (length pool.old)) × (records.new ≡ out_of result (file_records s.now) records.old) × (pool.new ≡ out_of result (file_pool s.now) pool.old) }
{
    let mut buf = [0u8; 4096];
    let mut tab = [0usize; 9216];
    let list = measure(s, start, &mut buf, &mut tab)?;
    if records.len() < list.records {
        return Err(Reason::NoRoom.fault_at(0));
    }
    if pool.len() < list.pool {
        return Err(Reason::NoRoom.fault_at(1));
    }
    write_rows(s, &tab, list.cues, &mut buf, &mut *records, &mut *pool);
    Ok(list)
}

// The room that reading a file needs: what it answers where there is enough.
pub fn read_room(file: &[u8]) -> Result<CueList, Refusal>
    ensures { result ≡ read_room file.now }
{
    let mut buf = [0u8; 4096];
    let mut tab = [0usize; 9216];
    let start = judge_header(file)?;
    measure(file, start, &mut buf, &mut tab)
}

// The cues of a file as records and pool.
pub fn read(file: &[u8], records: &mut [u8], pool: &mut [u8]) -> Result<CueList, Refusal>
    ensures { (result ≡ read_of file.now (length records.old) (length pool.old)) × (records.new ≡ out_of result (file_records file.now) records.old) × (pool.new ≡ out_of result (file_pool file.now) pool.old) }
{
    let start = judge_header(file)?;
    write_list(file, start, &mut *records, &mut *pool)
}
