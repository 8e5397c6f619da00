// Writing WebVTT samples: a cue, and the empty sample.
#![tactic(auto)]

ghost use Rattle.std.specs.Prelude.{◌≡◌, [], ◌++◌, ◌+◌, ◌≤◌, ◌<◌, length};
ghost use Rattle.base.specs.Over.{wrote};
ghost use Rattle.fields.specs.BigEndian.{bytes};
ghost use Rattle.boxes.specs.Boxes.{part};
ghost use Rattle.boxes.specs.Written.{box_bytes, item_bytes};
ghost use Rattle.wvtt.specs.Kinds.{vsid};
ghost use Rattle.wvtt_write.specs.Written.{if_any, text_items, cue_bytes, pooled, any_size, texts_size, cue_size, sample_bytes};

use fields::put32;
use wvtt::{IDEN, PAYL, STTG, VSID, VTTC, VTTE};

// Copies n bytes, one by one.
fn copy_bytes(out: &mut [u8], at: usize, src: &[u8], from: usize, n: usize)
    requires { (at + n ≤ length out.old) × (from + n ≤ length src.now) }
    ensures { out.new ≡ wrote out.old at (part src.now from (from + n)) }
{
    for i in 0..n {
        out[at + i] = src[from + i];
    }
}

// Copies sixteen bytes. All are read before the first is stored, so that it compiles to one load and one store.
fn copy16(out: &mut [u8], at: usize, src: &[u8], from: usize)
    requires { (at + 16 ≤ length out.old) × (from + 16 ≤ length src.now) }
    ensures { out.new ≡ wrote out.old at (part src.now from (from + 16)) }
{
    let mut block = [0u8; 16];
    block.copy_from_slice(&src[from..from + 16]);
    out[at..at + 16].copy_from_slice(&block);
}

// Copies n bytes of `src` from `from` on to `at` in `out`, sixteen at a time. The last sixteen may overlap the ones before.
pub fn copy_run(out: &mut [u8], at: usize, src: &[u8], from: usize, n: usize)
    requires { (at + n ≤ length out.old) × (from + n ≤ length src.now) }
    ensures { out.new ≡ wrote out.old at (part src.now from (from + n)) }
{
    if n < 16 {
        copy_bytes(&mut *out, at, src, from, n);
        return;
    }
    let last = n - 16;
    for i in (0..last).step_by(16) {
        copy16(&mut *out, at + i, src, from + i);
    }
    copy16(&mut *out, at + last, src, from + last);
}

// The size and the type of a box.
pub fn put_header(out: &mut [u8], at: usize, size: u32, kind: u32)
    requires { at + 8 ≤ length out.old }
    ensures { out.new ≡ wrote out.old at (bytes 4 size ++ bytes 4 kind) }
{
    put32(&mut *out, at, size);
    put32(&mut *out, at + 4, kind);
}

// A box whose body is n bytes of the pool.
pub fn put_text(out: &mut [u8], at: usize, kind: u32, pool: &[u8], from: usize, n: usize)
    requires { (at + 8 + n ≤ length out.old) × (from + n ≤ length pool.now) × (n + 8 ≤ 4294967295) }
    ensures { out.new ≡ wrote out.old at (box_bytes kind (part pool.now from (from + n))) }
{
    put_header(&mut *out, at, (n + 8) as u32, kind);
    copy_run(&mut *out, at + 8, pool, from, n);
}

// The same where there are any bytes; gives the place behind what was written.
fn put_any(out: &mut [u8], at: usize, kind: u32, pool: &[u8], from: usize, n: usize) -> usize
    requires { (at + any_size n ≤ length out.old) × (from + n ≤ length pool.now) × (n ≤ 65535) }
    ensures { (result ≡ at + any_size n) × (out.new ≡ wrote out.old at (item_bytes (if_any kind (part pool.now from (from + n))))) }
{
    if n == 0 {
        return at;
    }
    put_text(&mut *out, at, kind, pool, from, n);
    at + 8 + n
}

// The bytes of a box for a text of n bytes, if there is any.
fn any_size(n: usize) -> usize
    requires { n ≤ 65535 }
    ensures { (result ≡ any_size n) × (result ≤ 65543) }
{
    if n == 0 { 0 } else { n + 8 }
}

// The bytes of a cue whose texts have these lengths.
pub fn cue_size(identifier: usize, settings: usize, payload: usize) -> usize
    requires { (identifier ≤ 65535) × (settings ≤ 65535) × (payload ≤ 65535) }
    ensures { (result ≡ cue_size identifier settings payload) × (result < 262144) }
{
    any_size(identifier) + any_size(settings) + payload + 28
}

// The box of an ID.
fn put_id(out: &mut [u8], at: usize, id: u32)
    requires { at + 12 ≤ length out.old }
    ensures { out.new ≡ wrote out.old at (box_bytes vsid (bytes 4 id)) }
{
    put_header(&mut *out, at, 12, VSID);
    put32(&mut *out, at + 8, id);
}

// The boxes of a cue's three texts, which stand one after the other in the pool.
fn put_texts(
    out: &mut [u8],
    at: usize,
    pool: &[u8],
    from: usize,
    identifier: usize,
    settings: usize,
    payload: usize,
)
    requires { (at + texts_size identifier settings payload ≤ length out.old) × (from + identifier + settings + payload ≤ length pool.now) × (identifier ≤ 65535) × (settings ≤ 65535) × (payload ≤ 65535) }
    ensures { out.new ≡ wrote out.old at (item_bytes (text_items (pooled 0 pool.now from identifier settings payload))) }
{
    let behind = put_any(&mut *out, at, IDEN, pool, from, identifier);
    let last = put_any(&mut *out, behind, STTG, pool, from + identifier, settings);
    put_text(
        &mut *out,
        last,
        PAYL,
        pool,
        from + identifier + settings,
        payload,
    );
}

// A cue with its ID; gives the place behind it.
pub fn put_cue(
    out: &mut [u8],
    at: usize,
    id: u32,
    pool: &[u8],
    from: usize,
    identifier: usize,
    settings: usize,
    payload: usize,
) -> usize
    requires { (at + cue_size identifier settings payload ≤ length out.old) × (from + identifier + settings + payload ≤ length pool.now) × (identifier ≤ 65535) × (settings ≤ 65535) × (payload ≤ 65535) }
    ensures { (result ≡ at + cue_size identifier settings payload) × (out.new ≡ wrote out.old at (cue_bytes (pooled id pool.now from identifier settings payload))) }
{
    let size = cue_size(identifier, settings, payload);
    put_header(&mut *out, at, size as u32, VTTC);
    put_id(&mut *out, at + 8, id);
    put_texts(
        &mut *out,
        at + 20,
        pool,
        from,
        identifier,
        settings,
        payload,
    );
    at + size
}

// The empty sample; gives the place behind it.
pub fn put_empty(out: &mut [u8], at: usize) -> usize
    requires { at + 8 ≤ length out.old }
    ensures { (result ≡ at + 8) × (out.new ≡ wrote out.old at (sample_bytes [])) }
{
    put_header(&mut *out, at, 8, VTTE);
    at + 8
}
