// The library for C and Rust: every public operation under the prefix `captions_`, answers by value.
#![tactic(auto)]

ghost use Rattle.std.specs.Prelude.{◌≡◌, length};
ghost use Rattle.verdict.specs.Judgement.{text_at};
ghost use Rattle.utf8.specs.Utf8.{utf8, utf8_begun};
ghost use Rattle.text.specs.Rules.{identifier_text, payload_text, configuration_text, label_text};
ghost use Rattle.text.specs.Beginnings.{identifier_begun, payload_begun, configuration_begun, label_begun};
ghost use Rattle.characters.specs.Characters.{characters_of};
ghost use Rattle.boxes.specs.Boxes.{step_at, boxes_in};
ghost use Rattle.times.specs.Times.{tick};
ghost use Rattle.wvtt.specs.Sample.{judge_sample};
ghost use Rattle.profile_judge.specs.Judgement.{judge_profile};
ghost use Rattle.settings.specs.Form.{written};
ghost use Rattle.settings.specs.Reading.{read_settings};
ghost use Rattle.settings_write.specs.Writing.{record_with};
ghost use Rattle.settings_flat.specs.Flat.{flat_read, settings_of, given_room, given_written};
ghost use Rattle.wvtt_cues.specs.Cues.{next_cue};
ghost use Rattle.wvtt_entry.specs.Reading.{read_entry as read_wvtt_entry};
ghost use Rattle.wvtt_entry_write.specs.Writing.{label_of, entry_bytes, room_of, written_of, after as written_after};
ghost use Rattle.cues.specs.Judgement.{judge_list};
ghost use Rattle.track.specs.Track.{judge_track};
ghost use Rattle.pack.specs.Packing.{packed_track, table_bytes, samples_bytes, pack_room, packed_of, after};
ghost use Rattle.unpack.specs.Unpacking.{track_cues, unpack_room, unpack_of, out_of};
ghost use Rattle.table.specs.Parts.{table_of, content_of as samples_of};
ghost use Rattle.table_lasting.specs.Lasting.{lasting_of};
ghost use Rattle.table_lasting.specs.Dropping.{drop_room, drop_of, out_of as drop_out};
ghost use Rattle.vtt_read.specs.Reading.{file_records, file_pool, read_room, read_of, out_of as file_out};
ghost use Rattle.vtt_write.specs.Writing.{file_bytes, write_room, written_of as file_written, after as file_after};
ghost use Rattle.records_write.specs.Records.{records_of, pool_of};
ghost use Rattle.conform.specs.Conformance.{checked};
ghost use Rattle.tx3g_read.specs.Entry.{read_entry as read_tx3g_entry, font_in};
ghost use Rattle.tx3g_read.specs.Sample.{content_of};
ghost use Rattle.tx3g_runs.specs.Runs.{next_run};
ghost use Rattle.tx3g_style.specs.Style.{style_of};
ghost use Rattle.tx3g_box.specs.TextBox.{spot_of};
ghost use Rattle.tx3g_modifiers.specs.Modifiers.{next_modifier};
ghost use Rattle.tx3g_convert.specs.Convert.{stock_cues, convert_room, convert_of, out_of as convert_out};
ghost use Rattle.captions.specs.Flat.{flat_verdict, flat_text, flat_count, flat_step, no_cue, flat_held, ms_of, flat_packed, flat_unpacked, flat_dropped, flat_file, flat_file_written, flat_checked, flat_wvtt_entry, flat_written, flat_fields, no_fields, flat_tx3g_entry, flat_font, no_content, flat_content, plain_run, flat_run, box_of, no_box, flat_spot, no_style, flat_styled, modifier_of, flat_modifier, no_modifier, flat_modified, no_conversion, done_conversion, flat_converted};

use boxes::{Part, Step};
use conform::Fault as CheckFault;
use settings_flat::{CaptionsSettings, CaptionsSettingsRead};
use signed::{Edges, read_edges};
use table::Sizes;
use tx3g_convert::{CueList as StockList, Fault as StockFault};
use tx3g_modifiers::Modifier;
use tx3g_read::{Content, Fields, Font};
use tx3g_runs::Run;
use tx3g_sample::Fault;
use tx3g_stock::Counts;
use tx3g_style::Style;
use unpack::CueList;
use verdict::{Refusal, Verdict, bad_text_at, text_at};
use viable::Judged;
use vtt_read::CueList as FileList;
use vtt_write::Fault as FileFault;
use wvtt_cues::Parts;
use wvtt_entry::Entry as WvttEntry;

#[repr(C)]
#[derive(Clone, Copy, Default)]
pub struct CaptionsCount {
    pub refusal: Refusal,
    pub characters: usize,
}

#[repr(C)]
#[derive(Clone, Copy, Default)]
pub struct CaptionsStep {
    pub refusal: Refusal,
    pub found: bool,
    pub kind: u32,
    pub body: usize,
    pub next: usize,
}

#[repr(C)]
#[derive(Clone, Copy, Default)]
pub struct CaptionsCue {
    pub refusal: Refusal,
    pub found: bool,
    pub named: bool,
    pub id: u32,
    pub identifier_from: usize,
    pub identifier_end: usize,
    pub settings_from: usize,
    pub settings_end: usize,
    pub payload_from: usize,
    pub payload_end: usize,
    pub next: usize,
}

#[repr(C)]
#[derive(Clone, Copy, Default)]
pub struct CaptionsPacked {
    pub refusal: Refusal,
    pub samples: usize,
    pub table_bytes: usize,
    pub sample_bytes: usize,
}

#[repr(C)]
#[derive(Clone, Copy, Default)]
pub struct CaptionsUnpacked {
    pub refusal: Refusal,
    pub record_bytes: usize,
    pub pool_bytes: usize,
    pub t: u32,
}

#[repr(C)]
#[derive(Clone, Copy, Default)]
pub struct CaptionsDropped {
    pub refusal: Refusal,
    pub samples: usize,
    pub table_bytes: usize,
    pub sample_bytes: usize,
}

#[repr(C)]
#[derive(Clone, Copy, Default)]
pub struct CaptionsVttRead {
    pub refusal: Refusal,
    pub cues: usize,
    pub record_bytes: usize,
    pub pool_bytes: usize,
}

#[repr(C)]
#[derive(Clone, Copy, Default)]
pub struct CaptionsVttWritten {
    pub refusal: Refusal,
    pub who: u32,
    pub bytes: usize,
}

#[repr(C)]
#[derive(Clone, Copy, Default)]
pub struct CaptionsChecked {
    pub refusal: Refusal,
    pub who: u32,
}

#[repr(C)]
#[derive(Clone, Copy, Default)]
pub struct CaptionsWvttEntry {
    pub refusal: Refusal,
    pub data_reference_index: u32,
    pub labelled: bool,
    pub configuration_from: usize,
    pub configuration_end: usize,
    pub label_from: usize,
    pub label_end: usize,
}

#[repr(C)]
#[derive(Clone, Copy, Default)]
pub struct CaptionsWritten {
    pub refusal: Refusal,
    pub bytes: usize,
}

#[repr(C)]
#[derive(Clone, Copy, Default)]
pub struct CaptionsTx3gEntry {
    pub refusal: Refusal,
    pub data_reference_index: u32,
    pub display_flags: u32,
    pub horizontal: i32,
    pub vertical: i32,
    pub background_red: u32,
    pub background_green: u32,
    pub background_blue: u32,
    pub background_alpha: u32,
    pub top: i32,
    pub left: i32,
    pub bottom: i32,
    pub right: i32,
    pub font: u32,
    pub face: u32,
    pub size: u32,
    pub red: u32,
    pub green: u32,
    pub blue: u32,
    pub alpha: u32,
    pub fonts: usize,
    pub fonts_from: usize,
}

#[repr(C)]
#[derive(Clone, Copy, Default)]
pub struct CaptionsFont {
    pub found: bool,
    pub id: u32,
    pub name_from: usize,
    pub name_end: usize,
}

#[repr(C)]
#[derive(Clone, Copy, Default)]
pub struct CaptionsTx3gSample {
    pub refusal: Refusal,
    pub who: u32,
    pub characters: usize,
    pub utf16: bool,
    pub text_from: usize,
    pub text_end: usize,
    pub modifiers: usize,
    pub styles: usize,
    pub styles_from: usize,
    pub retired_blinking: bool,
}

#[repr(C)]
#[derive(Clone, Copy, Default)]
pub struct CaptionsStyle {
    pub refusal: Refusal,
    pub who: u32,
    pub start: u32,
    pub end: u32,
    pub font: u32,
    pub face: u32,
    pub size: u32,
    pub red: u32,
    pub green: u32,
    pub blue: u32,
    pub alpha: u32,
}

#[repr(C)]
#[derive(Clone, Copy, Default)]
pub struct CaptionsTx3gConverted {
    pub refusal: Refusal,
    pub who: u32,
    pub cues: usize,
    pub record_bytes: usize,
    pub pool_bytes: usize,
    pub t: u32,
    pub hlit: usize,
    pub retired_blinking: usize,
    pub hclr: usize,
    pub krok: usize,
    pub dlay: usize,
    pub href: usize,
    pub tbox: usize,
    pub twrp: usize,
}

#[repr(C)]
#[derive(Clone, Copy, Default)]
pub struct CaptionsRun {
    pub found: bool,
    pub styled: bool,
    pub from: usize,
    pub end: usize,
    pub font: u32,
    pub face: u32,
    pub size: u32,
    pub red: u32,
    pub green: u32,
    pub blue: u32,
    pub alpha: u32,
    pub styles: usize,
    pub styles_from: usize,
}

#[repr(C)]
#[derive(Clone, Copy, Default)]
pub struct CaptionsTextBox {
    pub refusal: Refusal,
    pub who: u32,
    pub in_sample: bool,
    pub from: usize,
    pub top: i32,
    pub left: i32,
    pub bottom: i32,
    pub right: i32,
}

// A modifier by the type of its box. What its numbers are, and what stands from `from` on, is said at `captions_tx3g_next_modifier`.
#[repr(C)]
#[derive(Clone, Copy, Default)]
pub struct CaptionsModifier {
    pub refusal: Refusal,
    pub found: bool,
    pub kind: u32,
    pub first: u32,
    pub second: u32,
    pub third: u32,
    pub fourth: u32,
    pub from: usize,
    pub end: usize,
    pub alternative_from: usize,
    pub alternative_end: usize,
    pub next: usize,
}

// No bytes.
const NOWHERE: Part = Part { from: 0, end: 0 };

// The refusal, or number 0 where nothing is wrong.
#[tactic(auto, unfolding(verdict::specs::Judgement::fault))]
fn flat_verdict(v: Verdict) -> Refusal
    ensures { result ≡ flat_verdict v }
{
    match v {
        Ok(()) => Refusal::default(),
        Err(why) => why,
    }
}

// A text at place 0.
fn flat_text(j: Judged) -> Refusal
    ensures { result ≡ flat_verdict (text_at 0 j) }
{
    flat_verdict(text_at(0, j))
}

impl From<Result<usize, usize>> for CaptionsCount {
    ghost from_gives = { λ n r. r ≡ flat_count n };

    #[tactic(auto, unfolding(verdict::specs::Judgement::fault))]
    fn from(n: Result<usize, usize>) -> Self {
        match n {
            Ok(characters) => Self {
                characters,
                ..Self::default()
            },
            Err(offset) => Self {
                refusal: bad_text_at(0, offset),
                ..Self::default()
            },
        }
    }
}

impl From<Step> for CaptionsStep {
    ghost from_gives = { λ t r. r ≡ flat_step t };

    #[tactic(auto, unfolding(verdict::specs::Judgement::fault))]
    fn from(t: Step) -> Self {
        match t {
            Step::Box { kind, body, next } => Self {
                found: true,
                kind,
                body,
                next,
                ..Self::default()
            },
            Step::Refused(refusal) => Self {
                refusal,
                ..Self::default()
            },
            Step::End => Self::default(),
        }
    }
}

impl From<Result<Option<(Parts, usize)>, Refusal>> for CaptionsCue {
    ghost from_gives = { λ h r. r ≡ flat_held h };

    #[tactic(auto, unfolding(verdict::specs::Judgement::fault))]
    fn from(h: Result<Option<(Parts, usize)>, Refusal>) -> Self {
        match h {
            Ok(Some((parts, next))) => Self {
                found: true,
                named: parts.named,
                id: parts.id,
                identifier_from: parts.identifier.from,
                identifier_end: parts.identifier.end,
                settings_from: parts.settings.from,
                settings_end: parts.settings.end,
                payload_from: parts.payload.from,
                payload_end: parts.payload.end,
                next,
                ..Self::default()
            },
            Ok(None) => Self::default(),
            Err(refusal) => Self {
                refusal,
                ..Self::default()
            },
        }
    }
}

impl From<Result<Sizes, Refusal>> for CaptionsPacked {
    ghost from_gives = { λ p r. r ≡ flat_packed p };

    #[tactic(auto, unfolding(verdict::specs::Judgement::fault))]
    fn from(p: Result<Sizes, Refusal>) -> Self {
        match p {
            Ok(packed) => Self {
                samples: packed.samples,
                table_bytes: packed.table,
                sample_bytes: packed.bytes,
                ..Self::default()
            },
            Err(refusal) => Self {
                refusal,
                ..Self::default()
            },
        }
    }
}

impl From<Result<CueList, Refusal>> for CaptionsUnpacked {
    ghost from_gives = { λ u r. r ≡ flat_unpacked u };

    #[tactic(auto, unfolding(verdict::specs::Judgement::fault))]
    fn from(u: Result<CueList, Refusal>) -> Self {
        match u {
            Ok(list) => Self {
                record_bytes: list.records,
                pool_bytes: list.pool,
                t: list.t,
                ..Self::default()
            },
            Err(refusal) => Self {
                refusal,
                ..Self::default()
            },
        }
    }
}

impl From<Result<Sizes, Refusal>> for CaptionsDropped {
    ghost from_gives = { λ d r. r ≡ flat_dropped d };

    #[tactic(auto, unfolding(verdict::specs::Judgement::fault))]
    fn from(d: Result<Sizes, Refusal>) -> Self {
        match d {
            Ok(left) => Self {
                samples: left.samples,
                table_bytes: left.table,
                sample_bytes: left.bytes,
                ..Self::default()
            },
            Err(refusal) => Self {
                refusal,
                ..Self::default()
            },
        }
    }
}

impl From<Result<FileList, Refusal>> for CaptionsVttRead {
    ghost from_gives = { λ f r. r ≡ flat_file f };

    #[tactic(auto, unfolding(verdict::specs::Judgement::fault))]
    fn from(f: Result<FileList, Refusal>) -> Self {
        match f {
            Ok(list) => Self {
                cues: list.cues,
                record_bytes: list.records,
                pool_bytes: list.pool,
                ..Self::default()
            },
            Err(refusal) => Self {
                refusal,
                ..Self::default()
            },
        }
    }
}

// Who is at fault: 1 an entry, 2 a sample, 3 a list, 4 a track, 5 a configuration, 6 an output, 0 nobody.
impl From<Result<usize, FileFault>> for CaptionsVttWritten {
    ghost from_gives = { λ w r. r ≡ flat_file_written w };

    #[tactic(auto, unfolding(verdict::specs::Judgement::fault))]
    fn from(w: Result<usize, FileFault>) -> Self {
        let (refusal, who) = match w {
            Ok(bytes) => {
                return Self {
                    bytes,
                    ..Self::default()
                };
            }
            Err(FileFault::Configuration(why)) => (why, 5),
            Err(FileFault::List(why)) => (why, 3),
            Err(FileFault::Room(why)) => (why, 6),
        };
        Self {
            refusal,
            who,
            ..Self::default()
        }
    }
}

impl From<Result<(), CheckFault>> for CaptionsChecked {
    ghost from_gives = { λ c r. r ≡ flat_checked c };

    #[tactic(auto, unfolding(verdict::specs::Judgement::fault))]
    fn from(c: Result<(), CheckFault>) -> Self {
        match c {
            Ok(()) => Self::default(),
            Err(CheckFault::List(refusal)) => Self { refusal, who: 3 },
            Err(CheckFault::Track(refusal)) => Self { refusal, who: 4 },
        }
    }
}

impl From<Result<WvttEntry, Refusal>> for CaptionsWvttEntry {
    ghost from_gives = { λ e r. r ≡ flat_wvtt_entry e };

    #[tactic(auto, unfolding(verdict::specs::Judgement::fault))]
    fn from(e: Result<WvttEntry, Refusal>) -> Self {
        match e {
            Ok(entry) => {
                let label = entry.label.unwrap_or(NOWHERE);
                Self {
                    data_reference_index: entry.index,
                    labelled: entry.label.is_some(),
                    configuration_from: entry.configuration.from,
                    configuration_end: entry.configuration.end,
                    label_from: label.from,
                    label_end: label.end,
                    ..Self::default()
                }
            }
            Err(refusal) => Self {
                refusal,
                ..Self::default()
            },
        }
    }
}

impl From<Result<usize, Refusal>> for CaptionsWritten {
    ghost from_gives = { λ w r. r ≡ flat_written w };

    #[tactic(auto, unfolding(verdict::specs::Judgement::fault))]
    fn from(w: Result<usize, Refusal>) -> Self {
        match w {
            Ok(bytes) => Self {
                bytes,
                ..Self::default()
            },
            Err(refusal) => Self {
                refusal,
                ..Self::default()
            },
        }
    }
}

impl From<Fields> for CaptionsTx3gEntry {
    ghost from_gives = { λ f r. r ≡ flat_fields f };

    #[tactic(auto, unfolding(verdict::specs::Judgement::fault))]
    fn from(f: Fields) -> Self {
        Self {
            data_reference_index: f.index,
            display_flags: f.flags,
            horizontal: f.horizontal,
            vertical: f.vertical,
            background_red: f.background.red,
            background_green: f.background.green,
            background_blue: f.background.blue,
            background_alpha: f.background.alpha,
            top: f.top,
            left: f.left,
            bottom: f.bottom,
            right: f.right,
            font: f.style.font,
            face: f.style.face,
            size: f.style.size,
            red: f.style.red,
            green: f.style.green,
            blue: f.style.blue,
            alpha: f.style.alpha,
            fonts: f.fonts as usize,
            fonts_from: f.from,
            ..Self::default()
        }
    }
}

impl From<Result<Fields, Refusal>> for CaptionsTx3gEntry {
    ghost from_gives = { λ e r. r ≡ flat_tx3g_entry e };

    #[tactic(auto, unfolding(verdict::specs::Judgement::fault))]
    fn from(e: Result<Fields, Refusal>) -> Self {
        match e {
            Ok(fields) => fields.into(),
            Err(refusal) => Self {
                refusal,
                ..Self::default()
            },
        }
    }
}

impl From<Option<Font>> for CaptionsFont {
    ghost from_gives = { λ f r. r ≡ flat_font f };

    fn from(f: Option<Font>) -> Self {
        match f {
            Some(font) => Self {
                found: true,
                id: font.id,
                name_from: font.from,
                name_end: font.end,
            },
            None => Self::default(),
        }
    }
}

// No sample: why, and whose fault it is.
fn no_content(refusal: Refusal, who: u32) -> CaptionsTx3gSample
    ensures { result ≡ no_content refusal who }
{
    CaptionsTx3gSample {
        refusal,
        who,
        ..CaptionsTx3gSample::default()
    }
}

impl From<Result<Content, Fault>> for CaptionsTx3gSample {
    ghost from_gives = { λ c r. r ≡ flat_content c };

    #[tactic(auto, unfolding(verdict::specs::Judgement::fault))]
    fn from(c: Result<Content, Fault>) -> Self {
        match c {
            Ok(content) => Self {
                characters: content.characters,
                utf16: content.text.utf16,
                text_from: content.text.from,
                text_end: content.text.end,
                modifiers: content.text.end,
                styles: content.styles.count as usize,
                styles_from: content.styles.from,
                retired_blinking: content.retired_blinking,
                ..Self::default()
            },
            Err(Fault::Entry(why)) => no_content(why, 1),
            Err(Fault::Sample(why)) => no_content(why, 2),
        }
    }
}

// A run, which begins at character k.
fn flat_run(r: Run, k: usize) -> CaptionsRun
    ensures { result ≡ flat_run r k }
{
    match r {
        Run::Styled {
            end,
            style,
            left,
            next,
        } => CaptionsRun {
            found: true,
            styled: true,
            from: k,
            end,
            font: style.font,
            face: style.face,
            size: style.size,
            red: style.red,
            green: style.green,
            blue: style.blue,
            alpha: style.alpha,
            styles: left,
            styles_from: next,
        },
        Run::Plain { end, left, next } => CaptionsRun {
            found: true,
            from: k,
            end,
            styles: left,
            styles_from: next,
            ..CaptionsRun::default()
        },
        Run::End => CaptionsRun::default(),
    }
}

#[tactic(auto, unfolding(verdict::specs::Judgement::fault))]
fn box_of(in_sample: bool, from: usize, edges: Edges) -> CaptionsTextBox
    ensures { result ≡ box_of in_sample from edges }
{
    CaptionsTextBox {
        in_sample,
        from,
        top: edges.top,
        left: edges.left,
        bottom: edges.bottom,
        right: edges.right,
        ..CaptionsTextBox::default()
    }
}

fn no_box(refusal: Refusal, who: u32) -> CaptionsTextBox
    ensures { result ≡ no_box refusal who }
{
    CaptionsTextBox {
        refusal,
        who,
        ..CaptionsTextBox::default()
    }
}

fn no_style(refusal: Refusal, who: u32) -> CaptionsStyle
    ensures { result ≡ no_style refusal who }
{
    CaptionsStyle {
        refusal,
        who,
        ..CaptionsStyle::default()
    }
}

impl From<Result<Style, Fault>> for CaptionsStyle {
    ghost from_gives = { λ s r. r ≡ flat_styled s };

    #[tactic(auto, unfolding(verdict::specs::Judgement::fault))]
    fn from(s: Result<Style, Fault>) -> Self {
        match s {
            Ok(style) => Self {
                start: style.start,
                end: style.end,
                font: style.font,
                face: style.face,
                size: style.size,
                red: style.red,
                green: style.green,
                blue: style.blue,
                alpha: style.alpha,
                ..Self::default()
            },
            Err(Fault::Entry(why)) => no_style(why, 1),
            Err(Fault::Sample(why)) => no_style(why, 2),
        }
    }
}

// A modifier whose box is of this kind, with its four numbers and a part.
#[tactic(auto, unfolding(verdict::specs::Judgement::fault))]
fn modifier_of(
    kind: u32,
    first: u32,
    second: u32,
    third: u32,
    fourth: u32,
    from: usize,
    end: usize,
    next: usize,
) -> CaptionsModifier
    ensures { result ≡ modifier_of kind first second third fourth from end 0 0 next }
{
    CaptionsModifier {
        found: true,
        kind,
        first,
        second,
        third,
        fourth,
        from,
        end,
        next,
        ..CaptionsModifier::default()
    }
}

// A link, with its range, its URL and its alternative text.
#[tactic(auto, unfolding(verdict::specs::Judgement::fault))]
fn flat_link(start: u32, end: u32, url: Part, alternative: Part, next: usize) -> CaptionsModifier
    ensures { result ≡ modifier_of 0x68726566 start end 0 0 url.from url.end alternative.from alternative.end next }
{
    CaptionsModifier {
        found: true,
        kind: 0x68726566,
        first: start,
        second: end,
        from: url.from,
        end: url.end,
        alternative_from: alternative.from,
        alternative_end: alternative.end,
        next,
        ..CaptionsModifier::default()
    }
}

fn flat_modifier(m: Modifier, next: usize) -> CaptionsModifier
    ensures { result ≡ flat_modifier m next }
{
    match m {
        Modifier::Styles { count, from } => modifier_of(0x7374796C, count, 0, 0, 0, from, 0, next),
        Modifier::Highlight { start, end } => modifier_of(0x686C6974, start, end, 0, 0, 0, 0, next),
        Modifier::Colour {
            red,
            green,
            blue,
            alpha,
        } => modifier_of(0x68636C72, red, green, blue, alpha, 0, 0, next),
        Modifier::Karaoke { time, count, from } => modifier_of(
            0x6B726F6B, time, count, 0, 0, from, 0, next,
        ),
        Modifier::Delay { time } => modifier_of(0x646C6179, time, 0, 0, 0, 0, 0, next),
        Modifier::Link {
            start,
            end,
            url,
            alternative,
        } => flat_link(start, end, url, alternative, next),
        Modifier::TextBox { from } => modifier_of(0x74626F78, 0, 0, 0, 0, from, 0, next),
        Modifier::Wrap { flag } => modifier_of(0x74777270, flag, 0, 0, 0, 0, 0, next),
    }
}

impl From<Result<Option<(Modifier, usize)>, Refusal>> for CaptionsModifier {
    ghost from_gives = { λ h r. r ≡ flat_modified h };

    #[tactic(auto, unfolding(verdict::specs::Judgement::fault))]
    fn from(h: Result<Option<(Modifier, usize)>, Refusal>) -> Self {
        match h {
            Ok(Some((modifier, next))) => flat_modifier(modifier, next),
            Ok(None) => Self::default(),
            Err(refusal) => Self {
                refusal,
                ..Self::default()
            },
        }
    }
}

// No conversion: whose fault it is, and why.
fn no_conversion(who: u32, why: Refusal) -> CaptionsTx3gConverted
    ensures { result ≡ no_conversion who why }
{
    CaptionsTx3gConverted {
        refusal: why,
        who,
        ..CaptionsTx3gConverted::default()
    }
}

impl From<Result<StockList, StockFault>> for CaptionsTx3gConverted {
    ghost from_gives = { λ c r. r ≡ flat_converted c };

    #[tactic(auto, unfolding(verdict::specs::Judgement::fault))]
    fn from(c: Result<StockList, StockFault>) -> Self {
        match c {
            Ok(list) => Self {
                cues: list.cues,
                record_bytes: list.records,
                pool_bytes: list.pool,
                t: list.t,
                hlit: list.dropped.hlit,
                retired_blinking: list.dropped.retired_blinking,
                hclr: list.dropped.hclr,
                krok: list.dropped.krok,
                dlay: list.dropped.dlay,
                href: list.dropped.href,
                tbox: list.dropped.tbox,
                twrp: list.dropped.twrp,
                ..Self::default()
            },
            Err(StockFault::Entry(why)) => no_conversion(1, why),
            Err(StockFault::Track(why)) => no_conversion(4, why),
            Err(StockFault::Room(why)) => no_conversion(6, why),
        }
    }
}

// The rules of texts; the place is 0.
#[unsafe(no_mangle)]
pub extern "C" fn captions_judge_utf8(text: &[u8]) -> Refusal
    ensures { result ≡ flat_text utf8 utf8_begun text.now }
{
    flat_text(text::judge_utf8(text))
}

#[unsafe(no_mangle)]
pub extern "C" fn captions_wvtt_judge_identifier(text: &[u8]) -> Refusal
    ensures { result ≡ flat_text identifier_text identifier_begun text.now }
{
    flat_text(text::judge_identifier(text))
}

#[unsafe(no_mangle)]
pub extern "C" fn captions_wvtt_judge_payload(text: &[u8]) -> Refusal
    ensures { result ≡ flat_text payload_text payload_begun text.now }
{
    flat_text(text::judge_payload(text))
}

#[unsafe(no_mangle)]
pub extern "C" fn captions_wvtt_judge_profile(text: &[u8]) -> Refusal
    ensures { result ≡ flat_verdict (judge_profile text.now) }
{
    flat_verdict(profile_judge::judge_profile(text))
}

#[unsafe(no_mangle)]
pub extern "C" fn captions_wvtt_judge_configuration(text: &[u8]) -> Refusal
    ensures { result ≡ flat_text configuration_text configuration_begun text.now }
{
    flat_text(text::judge_configuration(text))
}

#[unsafe(no_mangle)]
pub extern "C" fn captions_wvtt_judge_label(text: &[u8]) -> Refusal
    ensures { result ≡ flat_text label_text label_begun text.now }
{
    flat_text(text::judge_label(text))
}

#[unsafe(no_mangle)]
pub extern "C" fn captions_tx3g_count_characters(text: &[u8]) -> CaptionsCount
    ensures { result ≡ flat_count (characters_of text.now) }
{
    CaptionsCount::from(characters::count_characters(text))
}

// The box at `at`, in a container that ends with the bytes.
#[unsafe(no_mangle)]
pub extern "C" fn captions_step(bytes: &[u8], at: usize) -> CaptionsStep
    ensures { result ≡ flat_step (step_at bytes.now at (length bytes.now)) }
{
    CaptionsStep::from(boxes::step_at(bytes, at, bytes.len()))
}

#[unsafe(no_mangle)]
pub extern "C" fn captions_tick(scale: u32, ms: u32) -> u64
    ensures { result ≡ tick scale ms }
{
    times::tick_of(scale, ms)
}

#[unsafe(no_mangle)]
pub extern "C" fn captions_ms(scale: u32, tick: u64) -> u64
    ensures { result ≡ ms_of scale tick }
{
    if scale == 0 {
        return 0;
    }
    if 281474976710656 <= tick {
        return 0;
    }
    times::ms_of(scale, tick)
}

#[unsafe(no_mangle)]
pub extern "C" fn captions_wvtt_read_settings(text: &[u8]) -> CaptionsSettingsRead
    ensures { result ≡ flat_read (read_settings text.now) }
{
    settings_flat::flat_read(settings_read::read_settings(text))
}

#[unsafe(no_mangle)]
pub extern "C" fn captions_wvtt_settings_room(
    settings: CaptionsSettings,
    region: &[u8],
) -> CaptionsWritten
    ensures { result ≡ flat_written (given_room settings region.now) }
{
    CaptionsWritten::from(settings_flat::given_room(settings, region))
}

#[unsafe(no_mangle)]
pub extern "C" fn captions_wvtt_write_settings(
    settings: CaptionsSettings,
    region: &[u8],
    text: &mut [u8],
) -> CaptionsWritten
    ensures value { result ≡ flat_written (given_written settings region.now (length text.old)) }
    ensures text_after { text.new ≡ written_after (given_written settings region.now (length text.old)) (written (record_with (settings_of settings) region.now)) text.old }
{
    let w = settings_flat::write_given(settings, region, &mut *text);
    CaptionsWritten::from(w)
}

#[unsafe(no_mangle)]
pub extern "C" fn captions_wvtt_judge_sample(sample: &[u8]) -> Refusal
    ensures { result ≡ flat_verdict (judge_sample sample.now) }
{
    flat_verdict(wvtt::judge_sample(sample))
}

// The first cue from `from` on, where a box begins: 0, or the `next` of the cue before; or the refusal of a header before it or among its boxes.
#[unsafe(no_mangle)]
pub extern "C" fn captions_wvtt_next_cue(sample: &[u8], from: usize) -> CaptionsCue
    ensures { result ≡ flat_held (next_cue sample.now (boxes_in sample.now from (length sample.now))) }
{
    CaptionsCue::from(wvtt_cues::next_cue(sample, from))
}

#[unsafe(no_mangle)]
pub extern "C" fn captions_wvtt_read_entry(entry: &[u8]) -> CaptionsWvttEntry
    ensures { result ≡ flat_wvtt_entry (read_wvtt_entry entry.now) }
{
    CaptionsWvttEntry::from(wvtt_entry::read_entry(entry))
}

// The length that `captions_wvtt_write_entry` needs, or its refusal.
#[unsafe(no_mangle)]
pub extern "C" fn captions_wvtt_entry_room(
    configuration: &[u8],
    labelled: bool,
    label: &[u8],
) -> CaptionsWritten
    ensures { result ≡ flat_written (room_of configuration.now (label_of labelled label.now)) }
{
    CaptionsWritten::from(wvtt_entry_write::entry_room(configuration, labelled, label))
}

// Writes an entry with a configuration, a label if `labelled`, and a data reference index.
#[unsafe(no_mangle)]
pub extern "C" fn captions_wvtt_write_entry(
    configuration: &[u8],
    labelled: bool,
    label: &[u8],
    data_reference_index: u16,
    entry: &mut [u8],
) -> CaptionsWritten
    ensures value { result ≡ flat_written (written_of configuration.now (label_of labelled label.now) (length entry.old)) }
    ensures after { entry.new ≡ written_after (written_of configuration.now (label_of labelled label.now) (length entry.old)) (entry_bytes configuration.now (label_of labelled label.now) data_reference_index) entry.old }
{
    let w = wvtt_entry_write::write_entry(
        configuration,
        labelled,
        label,
        data_reference_index,
        &mut *entry,
    );
    CaptionsWritten::from(w)
}

#[unsafe(no_mangle)]
pub extern "C" fn captions_judge_list(scale: u32, t: u32, records: &[u8], pool: &[u8]) -> Refusal
    ensures { result ≡ flat_verdict (judge_list scale t records.now pool.now) }
{
    flat_verdict(cues::judge_list(scale, t, records, pool))
}

#[unsafe(no_mangle)]
pub extern "C" fn captions_wvtt_judge_track(table: &[u8], samples: &[u8]) -> Refusal
    ensures { result ≡ flat_verdict (judge_track table.now samples.now) }
{
    flat_verdict(track::judge_track(table, samples))
}

// The lengths that `captions_wvtt_pack` needs, or its refusal.
#[unsafe(no_mangle)]
pub extern "C" fn captions_wvtt_pack_room(
    scale: u32,
    t: u32,
    records: &[u8],
    pool: &[u8],
) -> CaptionsPacked
    ensures { result ≡ flat_packed (pack_room scale t records.now pool.now) }
{
    CaptionsPacked::from(pack::pack_room(scale, t, records, pool))
}

// Packs a cue list into a sample table and samples.
#[unsafe(no_mangle)]
pub extern "C" fn captions_wvtt_pack(
    scale: u32,
    t: u32,
    records: &[u8],
    pool: &[u8],
    table: &mut [u8],
    samples: &mut [u8],
) -> CaptionsPacked
    ensures value { result ≡ flat_packed (packed_of scale t records.now pool.now (length table.old) (length samples.old)) }
    ensures table_after { table.new ≡ after (packed_of scale t records.now pool.now (length table.old) (length samples.old)) (table_bytes (packed_track scale t records.now pool.now)) table.old }
    ensures samples_after { samples.new ≡ after (packed_of scale t records.now pool.now (length table.old) (length samples.old)) (samples_bytes (packed_track scale t records.now pool.now)) samples.old }
{
    let p = pack::pack(scale, t, records, pool, &mut *table, &mut *samples);
    CaptionsPacked::from(p)
}

// The lengths that `captions_wvtt_unpack` needs, or its refusal.
#[unsafe(no_mangle)]
pub extern "C" fn captions_wvtt_unpack_room(
    scale: u32,
    table: &[u8],
    samples: &[u8],
) -> CaptionsUnpacked
    ensures { result ≡ flat_unpacked (unpack_room scale table.now samples.now) }
{
    CaptionsUnpacked::from(unpack::unpack_room(scale, table, samples))
}

// Unpacks a track into records and their pool.
#[unsafe(no_mangle)]
pub extern "C" fn captions_wvtt_unpack(
    scale: u32,
    table: &[u8],
    samples: &[u8],
    records: &mut [u8],
    pool: &mut [u8],
) -> CaptionsUnpacked
    ensures value { result ≡ flat_unpacked (unpack_of scale table.now samples.now (length records.old) (length pool.old)) }
    ensures records_after { records.new ≡ out_of (unpack_of scale table.now samples.now (length records.old) (length pool.old)) (records_of scale (track_cues table.now samples.now)) records.old }
    ensures pool_after { pool.new ≡ out_of (unpack_of scale table.now samples.now (length records.old) (length pool.old)) (pool_of (track_cues table.now samples.now)) pool.old }
{
    let u = unpack::unpack(scale, table, samples, &mut *records, &mut *pool);
    CaptionsUnpacked::from(u)
}

// Checks a track against a cue list.
#[unsafe(no_mangle)]
pub extern "C" fn captions_wvtt_check(
    scale: u32,
    t: u32,
    records: &[u8],
    pool: &[u8],
    table: &[u8],
    samples: &[u8],
) -> CaptionsChecked
    ensures { result ≡ flat_checked (checked scale t records.now pool.now table.now samples.now) }
{
    CaptionsChecked::from(conform::check_track(scale, t, records, pool, table, samples))
}

// The lengths that `captions_drop_zero_durations` needs, or its refusal.
#[unsafe(no_mangle)]
pub extern "C" fn captions_drop_zero_durations_room(table: &[u8], samples: &[u8]) -> CaptionsDropped
    ensures { result ≡ flat_dropped (drop_room table.now samples.now) }
{
    CaptionsDropped::from(table_lasting::drop_zero_durations_room(table, samples))
}

// Copies a table and its samples without the samples of duration 0.
#[unsafe(no_mangle)]
pub extern "C" fn captions_drop_zero_durations(
    table: &[u8],
    samples: &[u8],
    table_out: &mut [u8],
    samples_out: &mut [u8],
) -> CaptionsDropped
    ensures value { result ≡ flat_dropped (drop_of table.now samples.now (length table_out.old) (length samples_out.old)) }
    ensures table_out_after { table_out.new ≡ drop_out (drop_of table.now samples.now (length table_out.old) (length samples_out.old)) (table_of (lasting_of table.now samples.now)) table_out.old }
    ensures samples_out_after { samples_out.new ≡ drop_out (drop_of table.now samples.now (length table_out.old) (length samples_out.old)) (samples_of (lasting_of table.now samples.now)) samples_out.old }
{
    let d = table_lasting::drop_zero_durations(table, samples, &mut *table_out, &mut *samples_out);
    CaptionsDropped::from(d)
}

// The lengths that `captions_vtt_read` needs, or its refusal.
#[unsafe(no_mangle)]
pub extern "C" fn captions_vtt_read_room(file: &[u8]) -> CaptionsVttRead
    ensures { result ≡ flat_file (read_room file.now) }
{
    CaptionsVttRead::from(vtt_read::read_room(file))
}

// Reads a WebVTT file into records and their pool.
#[unsafe(no_mangle)]
pub extern "C" fn captions_vtt_read(
    file: &[u8],
    records: &mut [u8],
    pool: &mut [u8],
) -> CaptionsVttRead
    ensures value { result ≡ flat_file (read_of file.now (length records.old) (length pool.old)) }
    ensures records_after { records.new ≡ file_out (read_of file.now (length records.old) (length pool.old)) (file_records file.now) records.old }
    ensures pool_after { pool.new ≡ file_out (read_of file.now (length records.old) (length pool.old)) (file_pool file.now) pool.old }
{
    let f = vtt_read::read(file, &mut *records, &mut *pool);
    CaptionsVttRead::from(f)
}

// The length that `captions_vtt_write` needs, or its refusal.
#[unsafe(no_mangle)]
pub extern "C" fn captions_vtt_write_room(
    configuration: &[u8],
    records: &[u8],
    pool: &[u8],
) -> CaptionsVttWritten
    ensures { result ≡ flat_file_written (write_room configuration.now records.now pool.now) }
{
    CaptionsVttWritten::from(vtt_write::write_room(configuration, records, pool))
}

// Writes a configuration and a cue list as a WebVTT file.
#[unsafe(no_mangle)]
pub extern "C" fn captions_vtt_write(
    configuration: &[u8],
    records: &[u8],
    pool: &[u8],
    file: &mut [u8],
) -> CaptionsVttWritten
    ensures value { result ≡ flat_file_written (file_written configuration.now records.now pool.now (length file.old)) }
    ensures file_after { file.new ≡ file_after (file_written configuration.now records.now pool.now (length file.old)) (file_bytes configuration.now records.now pool.now) file.old }
{
    let w = vtt_write::write(configuration, records, pool, &mut *file);
    CaptionsVttWritten::from(w)
}

#[unsafe(no_mangle)]
pub extern "C" fn captions_tx3g_read_entry(entry: &[u8]) -> CaptionsTx3gEntry
    ensures { result ≡ flat_tx3g_entry (read_tx3g_entry entry.now) }
{
    CaptionsTx3gEntry::from(tx3g_read::read_entry(entry))
}

// The font that stands at a byte of an entry.
#[unsafe(no_mangle)]
pub extern "C" fn captions_tx3g_font_at(entry: &[u8], at: usize) -> CaptionsFont
    ensures { result ≡ flat_font (font_in entry.now at) }
{
    CaptionsFont::from(tx3g_read::font_at(entry, at))
}

// A sample beside its entry: its text, where its modifiers and styles stand, the character count, and whether there is a `blnk`; or whose fault it is.
#[unsafe(no_mangle)]
pub extern "C" fn captions_tx3g_read_sample(entry: &[u8], sample: &[u8]) -> CaptionsTx3gSample
    ensures { result ≡ flat_content (content_of entry.now sample.now) }
{
    CaptionsTx3gSample::from(tx3g_read::read_content(entry, sample))
}

// The style of character k.
#[unsafe(no_mangle)]
pub extern "C" fn captions_tx3g_style(entry: &[u8], sample: &[u8], k: usize) -> CaptionsStyle
    ensures { result ≡ flat_styled (style_of entry.now sample.now k) }
{
    CaptionsStyle::from(tx3g_style::style_at(entry, sample, k))
}

// The run that begins at character k, where `styles` styles are left and the first of them stands at `styles_from`.
#[unsafe(no_mangle)]
pub extern "C" fn captions_tx3g_next_run(
    sample: &[u8],
    styles: usize,
    styles_from: usize,
    k: usize,
    characters: usize,
) -> CaptionsRun
    ensures { result ≡ flat_run (next_run sample.now styles styles_from k characters) k }
{
    flat_run(
        tx3g_runs::next_run(sample, styles, styles_from, k, characters),
        k,
    )
}

// The text box in force: its four numbers, and where its eight bytes stand.
#[unsafe(no_mangle)]
pub extern "C" fn captions_tx3g_text_box<'a>(entry: &'a [u8], sample: &'a [u8]) -> CaptionsTextBox
    ensures { result ≡ flat_spot entry.now sample.now (spot_of entry.now sample.now) }
{
    let p = tx3g_box::find_box(entry, sample);
    let bytes = tx3g_box::text_box(entry, sample, p);
    match p {
        Ok(found) => {
            let edges = read_edges(bytes, 0);
            match found {
                Some(at) => box_of(true, at, edges),
                None => box_of(false, 26, edges),
            }
        }
        Err(Fault::Entry(why)) => no_box(why, 1),
        Err(Fault::Sample(why)) => no_box(why, 2),
    }
}

// The first modifier from `from` on, where a box begins, or the refusal of a header before it; a `blnk` is passed over. By its kind: `styl` count and the styles from `from` on;
// `hlit` start and end; `hclr` red, green, blue, alpha; `krok` start time, count and the entries; `dlay` time; `href` start, end, URL and alternative text; `tbox` the box; `twrp` the flag.
#[unsafe(no_mangle)]
pub extern "C" fn captions_tx3g_next_modifier(sample: &[u8], from: usize) -> CaptionsModifier
    ensures { result ≡ flat_modified (next_modifier sample.now (boxes_in sample.now from (length sample.now))) }
{
    CaptionsModifier::from(tx3g_modifiers::next_modifier(sample, from))
}

// The lengths that `captions_tx3g_convert` needs, or its refusal.
#[unsafe(no_mangle)]
pub extern "C" fn captions_tx3g_convert_room(
    scale: u32,
    entry: &[u8],
    table: &[u8],
    samples: &[u8],
) -> CaptionsTx3gConverted
    ensures { result ≡ flat_converted (convert_room scale entry.now table.now samples.now) }
{
    CaptionsTx3gConverted::from(tx3g_convert::convert_room(scale, entry, table, samples))
}

// Converts a `tx3g` track into records and their pool.
#[unsafe(no_mangle)]
pub extern "C" fn captions_tx3g_convert(
    scale: u32,
    entry: &[u8],
    table: &[u8],
    samples: &[u8],
    records: &mut [u8],
    pool: &mut [u8],
) -> CaptionsTx3gConverted
    ensures value { result ≡ flat_converted (convert_of scale entry.now table.now samples.now (length records.old) (length pool.old)) }
    ensures records_after { records.new ≡ convert_out (convert_of scale entry.now table.now samples.now (length records.old) (length pool.old)) (records_of scale (stock_cues entry.now table.now samples.now)) records.old }
    ensures pool_after { pool.new ≡ convert_out (convert_of scale entry.now table.now samples.now (length records.old) (length pool.old)) (pool_of (stock_cues entry.now table.now samples.now)) pool.old }
{
    let c = tx3g_convert::convert(scale, entry, table, samples, &mut *records, &mut *pool);
    CaptionsTx3gConverted::from(c)
}
