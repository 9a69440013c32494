// Writes bags from stores that stand in memory and prints each outcome: the answer, the bytes in hex (of a long bag its first bytes, the
// CRC-32C of all and the last bytes), whether the scratch is all 0, and whether the output past the bag is as it was. Each bag is then read into an
// empty store and written from there: printed are the counts of the read, and whether the bytes are the same.
#![tactic(auto)]

use crc32c::crc32c;
use memory::{Cells, entry};
use reader::Counts;
use scheme::{DATA_LEN, MAX_CELLS, RECORD_LEN, Refusal};
use std::io;
use std::io::Write;
use writer::BagOfCellsArgs;

// Records of the largest store, the scratch for them, and the output.
const ROOM: usize = 256;

const SCRATCH: usize = 1024;

const OUT: usize = 1600;
// Records of the store that holds the web.
const WEB: usize = 128;
// Bags up to this length are printed whole.
const SHORT: usize = 150;
// The first bytes of a longer one.
const HEAD: usize = 16;
// The last bytes of a longer one: where there is a checksum, these are it.
const TAIL: usize = 4;
// What the scratch and the output hold before a call.
const USED: u32 = 7;

const BEFORE: u8 = 0xee;

// The memory of the largest store, the data of the web, the scratch and the output. Each comes from a function, so that its type says its length and no
// proof counts its elements.
fn table_room() -> [u32; ROOM * RECORD_LEN] {
    [0u32; ROOM * RECORD_LEN]
}

fn bytes_room() -> [u8; ROOM * DATA_LEN] {
    [0u8; ROOM * DATA_LEN]
}

fn web_bytes_room() -> [u8; WEB * DATA_LEN] {
    [0u8; WEB * DATA_LEN]
}

fn scratch_room() -> [u32; SCRATCH] {
    [USED; SCRATCH]
}

fn out_room() -> [u8; OUT] {
    [BEFORE; OUT]
}

// Sets number i of the table, where there is one.
fn set_number(table: &mut [u32], i: usize, v: u32) {
    if i < table.len() {
        table[i] = v;
    }
}

fn value(c: u8) -> u32 {
    if c < b'0' { 0 } else { u32::from(c - b'0') }
}

// Sets a number by place i of a text of rows: seven digits for a record, and a space between two.
fn set_digit(table: &mut [u32], i: usize, c: u8) {
    if i % 8 == 7 {
        return;
    }
    set_number(table, i / 8 * RECORD_LEN + i % 8, value(c));
}

// Sets the records: flag, bits, how many references, and four references each.
fn set_rows(table: &mut [u32], rows: &[u8]) {
    for (i, digit) in rows.iter().enumerate() {
        set_digit(table, i, *digit);
    }
}

// Sets byte k of the data of cell i, where there is one.
fn set_byte(bytes: &mut [u8], i: usize, k: usize, b: u8) {
    if i >= MAX_CELLS || k >= DATA_LEN {
        return;
    }
    let at = i * DATA_LEN + k;
    if at < bytes.len() {
        bytes[at] = b;
    }
}

fn store_of<'a>(count: usize, table: &'a [u32], bytes: &'a [u8]) -> Cells<'a> {
    Cells {
        count,
        table,
        bytes,
    }
}

fn all_zero(xs: &[u32]) -> bool {
    xs.iter().all(|x| *x == 0)
}

fn all_kept(xs: &[u8]) -> bool {
    xs.iter().all(|x| *x == BEFORE)
}

fn show_kept<W: Write>(to: &mut W, xs: &[u8]) -> io::Result<()> {
    let kept = if all_kept(xs) { "kept" } else { "CHANGED" };
    write!(to, " {kept}")
}

// The first bytes of a bag, which hold its size and total, the checksum of all of it, and its last bytes.
fn show_long<W: Write>(to: &mut W, bag: &[u8]) -> io::Result<()> {
    if bag.len() < HEAD {
        return Ok(());
    }
    show::text(to, b" ")?;
    show::bytes(to, &bag[..HEAD])?;
    show::text(to, b" ")?;
    show::word(to, crc32c(bag))?;
    show::text(to, b" ")?;
    let from = bag.len() - TAIL;
    show::bytes(to, &bag[from..])
}

fn with(has_idx: bool, has_crc32c: bool) -> BagOfCellsArgs {
    BagOfCellsArgs {
        has_idx,
        has_crc32c,
    }
}

// What byte 4 of a bag says.
fn args_of(bag: &[u8]) -> BagOfCellsArgs {
    if bag.len() < 5 {
        return with(false, false);
    }
    with(bag[4] >= 128, bag[4] % 128 >= 64)
}

// Whether the first `long` bytes of out are the bag.
fn show_same<W: Write>(to: &mut W, bag: &[u8], out: &[u8], long: usize) -> io::Result<()> {
    if long > out.len() {
        return Ok(());
    }
    let same = if bag == &out[..long] { "same" } else { "other" };
    write!(to, " {same}")
}

// Writes cell n of a store with the options of the bag, and compares with it.
fn write_again<W: Write>(to: &mut W, bag: &[u8], store: Cells, n: usize) -> io::Result<()> {
    let args = args_of(bag);
    let mut scratch = scratch_room();
    let mut out = out_room();
    let r = writer::serialize(store, n, args, &mut scratch, &mut out);
    match r {
        Ok(long) => show_same(to, bag, &out, long),
        Err(refusal) => {
            let number = refusal.reason.number();
            write!(to, " {number}")
        }
    }
}

// Reads a bag into this empty store.
fn read_into<W: Write>(
    to: &mut W,
    bag: &[u8],
    table: &mut [u32],
    bytes: &mut [u8],
) -> io::Result<()> {
    let mut count = 0;
    let mut scratch = scratch_room();
    let mut roots = [0u32; 1];
    let r = reader::unpack_fully(bag, &mut count, table, bytes, &mut scratch, &mut roots);
    match r {
        Ok(counts) => {
            let Counts {
                used,
                cells,
                roots: listed,
                added,
            } = counts;
            write!(to, " read {used} {cells} {listed} {added}")?;
            write_again(to, bag, store_of(count, table, bytes), entry(&roots, 0))
        }
        Err(refusal) => write!(to, " {refusal}"),
    }
}

fn read_short<W: Write>(to: &mut W, bag: &[u8]) -> io::Result<()> {
    let mut table = [0u32; 8 * RECORD_LEN];
    let mut bytes = [0u8; 8 * DATA_LEN];
    read_into(to, bag, &mut table, &mut bytes)
}

fn read_long<W: Write>(to: &mut W, bag: &[u8]) -> io::Result<()> {
    let mut table = table_room();
    let mut bytes = bytes_room();
    read_into(to, bag, &mut table, &mut bytes)
}

// A bag of n bytes at the start of out, and what comes back from it.
fn show_bag<W: Write>(to: &mut W, out: &[u8], n: usize) -> io::Result<()> {
    if n > out.len() {
        return Ok(());
    }
    let bag = &out[..n];
    if n <= SHORT {
        show::text(to, b" ")?;
        show::bytes(to, bag)?;
        read_short(to, bag)?;
    } else {
        show_long(to, bag)?;
        read_long(to, bag)?;
    }
    show_kept(to, &out[n..])
}

fn show_outcome<W: Write>(
    to: &mut W,
    r: Result<usize, Refusal>,
    scratch: &[u32],
    out: &[u8],
) -> io::Result<()> {
    match r {
        Ok(n) => {
            write!(to, " ok {n}")?;
            show_bag(to, out, n)?;
        }
        Err(refusal) => {
            write!(to, " {refusal}")?;
            show_kept(to, out)?;
        }
    }
    let left = if all_zero(scratch) { "zeroed" } else { "LEFT" };
    writeln!(to, " {left}")
}

// One write, with all of this scratch and so many bytes of the output lent.
fn write_lent<W: Write>(
    to: &mut W,
    store: Cells,
    n: usize,
    args: BagOfCellsArgs,
    room: usize,
    scratch: &mut [u32],
    out: &mut [u8],
) -> io::Result<()> {
    if room > out.len() {
        return Ok(());
    }
    let r = writer::serialize(store, n, args, scratch, &mut out[..room]);
    show_outcome(to, r, scratch, out)
}

// The same, with so many of the scratch entries.
fn write_into<W: Write>(
    to: &mut W,
    store: Cells,
    n: usize,
    args: BagOfCellsArgs,
    entries: usize,
    room: usize,
    scratch: &mut [u32],
    out: &mut [u8],
) -> io::Result<()> {
    if entries > scratch.len() {
        return Ok(());
    }
    write_lent(to, store, n, args, room, &mut scratch[..entries], out)
}

fn write_within<W: Write>(
    to: &mut W,
    store: Cells,
    n: usize,
    args: BagOfCellsArgs,
    entries: usize,
    room: usize,
) -> io::Result<()> {
    let mut scratch = scratch_room();
    let mut out = out_room();
    write_into(to, store, n, args, entries, room, &mut scratch, &mut out)
}

fn write<W: Write>(
    to: &mut W,
    name: &[u8],
    store: Cells,
    n: usize,
    args: BagOfCellsArgs,
) -> io::Result<()> {
    if store.count > ROOM {
        return Ok(());
    }
    show::text(to, name)?;
    write_within(to, store, n, args, 4 * store.count, OUT)
}

// The four bags of one root: plain, with an index, with a checksum, with both.
fn write_all<W: Write>(to: &mut W, name: &[u8], store: Cells, n: usize) -> io::Result<()> {
    write(to, name, store, n, with(false, false))?;
    write(to, name, store, n, with(true, false))?;
    write(to, name, store, n, with(false, true))?;
    write(to, name, store, n, with(true, true))
}

// Sets the first data byte of each cell.
fn set_firsts(bytes: &mut [u8], firsts: &[u8]) {
    for (i, first) in firsts.iter().enumerate() {
        set_byte(bytes, i, 0, *first);
    }
}

// Sets the first data bytes of cell i.
fn set_bytes(bytes: &mut [u8], i: usize, count: usize, b: u8) {
    for k in 0..count {
        set_byte(bytes, i, k, b);
    }
}

// The cell of 32 bits, and each refusal, in their order.
fn write_number<W: Write>(to: &mut W, store: Cells) -> io::Result<()> {
    write_all(to, b"number", store, 0)?;
    show::text(to, b"just enough")?;
    write_within(to, store, 0, with(false, false), 4, 17)?;
    show::text(to, b"room")?;
    write_within(to, store, 0, with(false, false), 4, 16)?;
    show::text(to, b"room")?;
    write_within(to, store, 0, with(true, true), 4, 0)?;
    show::text(to, b"scratch")?;
    write_within(to, store, 0, with(false, false), 3, 0)?;
    show::text(to, b"cell")?;
    write_within(to, store, 1, with(false, false), 0, 0)?;
    show::text(to, b"store")?;
    // More cells than there are records.
    let odd = Cells { count: 3, ..store };
    write_within(to, odd, 4, with(false, false), 5, 5)
}

fn set_data(bytes: &mut [u8]) {
    set_byte(bytes, 0, 2, 4);
    set_byte(bytes, 0, 3, 0xd2);
}

fn try_number<W: Write>(to: &mut W) -> io::Result<()> {
    let mut table = [0u32; 14];
    let mut bytes = [0u8; 256];
    set_number(&mut table, 1, 32);
    set_data(&mut bytes);
    write_number(to, store_of(1, &table, &bytes))
}

// Bits that end in a byte and between bytes, and an exotic cell.
fn write_bits<W: Write>(to: &mut W, store: Cells) -> io::Result<()> {
    write_all(to, b"empty", store, 0)?;
    write_all(to, b"three bits", store, 1)?;
    write_all(to, b"1016 bits", store, 2)?;
    write_all(to, b"1017 bits", store, 3)?;
    write_all(to, b"1023 bits", store, 4)?;
    write_all(to, b"exotic", store, 5)
}

fn set_lengths(table: &mut [u32]) {
    set_number(table, 15, 1016);
    set_number(table, 22, 1017);
    set_number(table, 29, 1023);
}

fn set_long(bytes: &mut [u8]) {
    set_bytes(bytes, 2, 127, 0x5a);
    set_bytes(bytes, 3, 128, 0x80);
    set_bytes(bytes, 4, 128, 0x5a);
}

fn try_bits<W: Write>(to: &mut W) -> io::Result<()> {
    let mut table = [0u32; 42];
    let mut bytes = [0u8; 768];
    set_rows(
        &mut table,
        b"0000000 0300000 0000000 0000000 0013000 1821000",
    );
    set_lengths(&mut table);
    set_firsts(&mut bytes, b"\x00\xa0\x00\x00\x00\xff");
    set_long(&mut bytes);
    write_bits(to, store_of(6, &table, &bytes))
}

// aa refers to bb and cc, both to an empty cell; then from bb alone.
fn write_diamond<W: Write>(to: &mut W, store: Cells) -> io::Result<()> {
    write_all(to, b"diamond", store, 3)?;
    write_all(to, b"bb", store, 1)
}

fn try_diamond<W: Write>(to: &mut W) -> io::Result<()> {
    let mut table = [0u32; 28];
    let mut bytes = [0u8; 512];
    set_rows(&mut table, b"0000000 0810000 0810000 0821200");
    set_firsts(&mut bytes, b"\x00\xbb\xcc\xaa");
    write_diamond(to, store_of(4, &table, &bytes))
}

// Children that wait for a later parent, and children that one parent names more than once.
fn write_order<W: Write>(to: &mut W, store: Cells) -> io::Result<()> {
    write_all(to, b"root, b, d", store, 2)?;
    write_all(to, b"d, b, d", store, 3)?;
    write_all(to, b"d four times", store, 4)?;
    write_all(to, b"all", store, 6)
}

fn try_order<W: Write>(to: &mut W) -> io::Result<()> {
    let mut table = [0u32; 49];
    let mut bytes = [0u8; 896];
    set_rows(
        &mut table,
        b"0800000 0810000 0020100 0030100 0040000 0044232 0045051",
    );
    set_firsts(&mut bytes, b"\x0d\x0b");
    write_order(to, store_of(7, &table, &bytes))
}

// Cell i refers to the one before; no data.
fn set_link(table: &mut [u32], i: usize) {
    if i == 0 || i >= MAX_CELLS {
        return;
    }
    set_number(table, i * RECORD_LEN + 2, 1);
    set_number(table, i * RECORD_LEN + 3, (i - 1) as u32);
}

fn set_chain(table: &mut [u32], n: usize) {
    for i in 0..n {
        set_link(table, i);
    }
}

fn write_chain<W: Write>(to: &mut W, name: &[u8], store: Cells, n: usize) -> io::Result<()> {
    write(to, name, store, n, with(false, false))?;
    write(to, name, store, n, with(true, true))
}

fn try_chains<W: Write>(to: &mut W) -> io::Result<()> {
    let mut table = table_room();
    let bytes = bytes_room();
    set_chain(&mut table, 255);
    write_chain(to, b"chain of 255", store_of(255, &table, &bytes), 254)?;
    set_link(&mut table, 255);
    write_chain(to, b"chain of 256", store_of(256, &table, &bytes), 255)
}

// The number of the cell that stands so far before cell i, or 0.
fn lower(i: usize, back: usize) -> u32 {
    if i >= MAX_CELLS || i < back {
        return 0;
    }
    (i - back) as u32
}

fn first_byte(bits: u32) -> u8 {
    if bits > 0 { 0x80 } else { 0 }
}

// Sets reference k of cell i, where its record has one.
fn set_reference(table: &mut [u32], i: usize, k: usize, r: u32) {
    if i >= MAX_CELLS || k >= i % 5 {
        return;
    }
    set_number(table, i * RECORD_LEN + 3 + k, r);
}

// The first two references of cell i, and the other two.
fn set_near(table: &mut [u32], i: usize) {
    if i >= MAX_CELLS {
        return;
    }
    set_reference(table, i, 0, lower(i, 1 + i % 5));
    set_reference(table, i, 1, lower(i, 1 + 2 * i % 5));
}

fn set_far(table: &mut [u32], i: usize) {
    if i >= MAX_CELLS {
        return;
    }
    set_reference(table, i, 2, lower(i, 1 + 3 * i % 5));
    set_reference(table, i, 3, lower(i, 1 + 4 * i % 5));
}

// A cell of 0 to 4 references and 0 to 23 bits.
fn set_knot(table: &mut [u32], i: usize) {
    if i >= MAX_CELLS {
        return;
    }
    set_number(table, i * RECORD_LEN + 1, (i % 24) as u32);
    set_number(table, i * RECORD_LEN + 2, (i % 5) as u32);
}

fn set_web(table: &mut [u32], n: usize) {
    for i in 0..n {
        set_knot(table, i);
        set_near(table, i);
        set_far(table, i);
    }
}

fn set_first_bytes(bytes: &mut [u8], n: usize) {
    for i in 0..n {
        set_byte(bytes, i, 0, first_byte((i % 24) as u32));
    }
}

fn write_web<W: Write>(to: &mut W, store: Cells) -> io::Result<()> {
    write_all(to, b"web", store, WEB - 1)?;
    write(to, b"part", store, 99, with(true, false))?;
    write(to, b"part", store, 64, with(false, true))
}

fn try_web<W: Write>(to: &mut W) -> io::Result<()> {
    let mut table = [0u32; WEB * RECORD_LEN];
    let mut bytes = web_bytes_room();
    set_web(&mut table, WEB);
    set_first_bytes(&mut bytes, WEB);
    write_web(to, store_of(WEB, &table, &bytes))
}

fn main(rt: HostRuntime) -> io::Result<()> {
    let mut to = rt.stdout();
    try_number(&mut to)?;
    try_bits(&mut to)?;
    try_diamond(&mut to)?;
    try_order(&mut to)?;
    try_chains(&mut to)?;
    try_web(&mut to)
}
