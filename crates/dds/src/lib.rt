// The exports: one line for each call from C. What each does is said and proved in the crate of its room.
#![tactic(auto)]

ghost use Rattle.std.specs.Prelude.{◌≡◌, [], ◌∷◌};
ghost use Rattle.slices.specs.Call.{left};
ghost use Rattle.c_reader.specs.Calls.{dds_reader_start, dds_read};
ghost use Rattle.c_explain.specs.Calls.{explains, dds_explain};
ghost use Rattle.c_blocks.specs.Calls.{dds_blocks_start, dds_blocks_read, dds_blocks_find};
ghost use Rattle.c_writer.specs.Calls.{dds_writer_start, dds_record, dds_separator, dds_end};
ghost use Rattle.c_track.specs.Calls.{dds_subdata_make, dds_subdata_read};
ghost use Rattle.c_third.specs.Calls.{dds_third_make, dds_third_check, dds_third_restore_one, dds_third_restore_two, dds_third_mend};
ghost use Rattle.c_loader.specs.Calls.{dds_volume_make, dds_volume_read, dds_alert_make, dds_alert_read, dds_radio_find};

// A fresh reader, into the state slice.
#[unsafe(no_mangle)]
pub extern "C" fn dds_reader_start(
    size: u32,
    first: u32,
    state: &mut [u8],
    answer: &mut [u8],
) -> u32
    ensures { left result (state.new ∷ []) answer.new ≡ dds_reader_start size first state.old answer.old }
{
    c_reader::start(size, first, state, answer)
}

// Reads one group: its rows, and the state for the next.
#[unsafe(no_mangle)]
pub extern "C" fn dds_read(
    state: &mut [u8],
    group: &[u8],
    number: u32,
    entries: u32,
    rows: &mut [u8],
    answer: &mut [u8],
) -> u32
    ensures { left result (state.new ∷ rows.new ∷ []) answer.new ≡ dds_read state.old group.now number entries rows.old answer.old }
{
    c_reader::read(state, group, number, entries, rows, answer)
}

// Why a read with these arguments refuses. Nothing but the explanation is written.
#[unsafe(no_mangle)]
pub extern "C" fn dds_explain(
    state: &[u8],
    group: &[u8],
    number: u32,
    entries: u32,
    rows: &[u8],
    explanation: &mut [u8],
) -> u32
    ensures { explains result explanation.new ≡ dds_explain state.now group.now number entries rows.now explanation.old }
{
    c_explain::explain(state, group, number, entries, rows, explanation)
}

// A fresh reader of blocks of one size, into the state slice.
#[unsafe(no_mangle)]
pub extern "C" fn dds_blocks_start(
    size: u32,
    first: u32,
    block: u32,
    state: &mut [u8],
    answer: &mut [u8],
) -> u32
    ensures { left result (state.new ∷ []) answer.new ≡ dds_blocks_start size first block state.old answer.old }
{
    c_blocks::start(size, first, block, state, answer)
}

// Reads one group of blocks: its rows, and the state for the next.
#[unsafe(no_mangle)]
pub extern "C" fn dds_blocks_read(
    state: &mut [u8],
    group: &[u8],
    number: u32,
    entries: u32,
    rows: &mut [u8],
    answer: &mut [u8],
) -> u32
    ensures { left result (state.new ∷ rows.new ∷ []) answer.new ≡ dds_blocks_read state.old group.now number entries rows.old answer.old }
{
    c_blocks::read(state, group, number, entries, rows, answer)
}

// Where a block begins, from a group's rows and the number of blocks begun before it.
#[unsafe(no_mangle)]
pub extern "C" fn dds_blocks_find(rows: &[u8], before: u32, block: u32, answer: &mut [u8]) -> u32
    ensures { left result [] answer.new ≡ dds_blocks_find rows.now before block answer.old }
{
    c_blocks::find(rows, before, block, answer)
}

// A fresh writer, into the state slice.
#[unsafe(no_mangle)]
pub extern "C" fn dds_writer_start(
    size: u32,
    first: u32,
    state: &mut [u8],
    answer: &mut [u8],
) -> u32
    ensures { left result (state.new ∷ []) answer.new ≡ dds_writer_start size first state.old answer.old }
{
    c_writer::start(size, first, state, answer)
}

// A record's bytes: whole, or as many as the group takes.
#[unsafe(no_mangle)]
pub extern "C" fn dds_record(
    state: &mut [u8],
    group: &mut [u8],
    data: &[u8],
    warn: u32,
    answer: &mut [u8],
) -> u32
    ensures { left result (state.new ∷ group.new ∷ []) answer.new ≡ dds_record state.old group.old «data».now warn answer.old }
{
    c_writer::record(state, group, data, warn, answer)
}

// Separator 1 is value 0, Separator 2 is value 1.
#[unsafe(no_mangle)]
pub extern "C" fn dds_separator(
    state: &mut [u8],
    group: &mut [u8],
    value: u32,
    warn: u32,
    answer: &mut [u8],
) -> u32
    ensures { left result (state.new ∷ group.new ∷ []) answer.new ≡ dds_separator state.old group.old value warn answer.old }
{
    c_writer::separator(state, group, value, warn, answer)
}

// The end of the run's data.
#[unsafe(no_mangle)]
pub extern "C" fn dds_end(state: &mut [u8], group: &mut [u8], warn: u32, answer: &mut [u8]) -> u32
    ensures { left result (state.new ∷ group.new ∷ []) answer.new ≡ dds_end state.old group.old warn answer.old }
{
    c_writer::end(state, group, warn, answer)
}

// A track from its Area ID, Pack IDs and items, and the Item number of each place.
#[unsafe(no_mangle)]
pub extern "C" fn dds_subdata_make(
    area: u32,
    frame: u32,
    packs: &[u8],
    items: &[u8],
    track: &mut [u8],
    numbers: &mut [u8],
    answer: &mut [u8],
) -> u32
    ensures { left result (track.new ∷ numbers.new ∷ []) answer.new ≡ dds_subdata_make area frame packs.now items.now track.old numbers.old answer.old }
{
    c_track::make(area, frame, packs, items, track, numbers, answer)
}

// A track's Pack IDs and what stands at its places, and the Item number of each place.
#[unsafe(no_mangle)]
pub extern "C" fn dds_subdata_read(
    area: u32,
    frame: u32,
    track: &[u8],
    packs: &mut [u8],
    items: &mut [u8],
    numbers: &mut [u8],
    answer: &mut [u8],
) -> u32
    ensures { left result (packs.new ∷ items.new ∷ numbers.new ∷ []) answer.new ≡ dds_subdata_read area frame track.now packs.old items.old numbers.old answer.old }
{
    c_track::read(area, frame, track, packs, items, numbers, answer)
}

// The two check rows made from the rows of data.
#[unsafe(no_mangle)]
pub extern "C" fn dds_third_make(n: u32, rows: &mut [u8], answer: &mut [u8]) -> u32
    ensures { left result (rows.new ∷ []) answer.new ≡ dds_third_make n rows.old answer.old }
{
    c_third::make(n, rows, answer)
}

// Whether every column keeps both rules.
#[unsafe(no_mangle)]
pub extern "C" fn dds_third_check(n: u32, rows: &[u8], answer: &mut [u8]) -> u32
    ensures { left result [] answer.new ≡ dds_third_check n rows.now answer.old }
{
    c_third::check(n, rows, answer)
}

// One row restored from the others.
#[unsafe(no_mangle)]
pub extern "C" fn dds_third_restore_one(n: u32, row: u32, rows: &mut [u8], answer: &mut [u8]) -> u32
    ensures { left result (rows.new ∷ []) answer.new ≡ dds_third_restore_one n row rows.old answer.old }
{
    c_third::restore_one(n, row, rows, answer)
}

// Two rows restored from the others.
#[unsafe(no_mangle)]
pub extern "C" fn dds_third_restore_two(
    n: u32,
    first: u32,
    second: u32,
    rows: &mut [u8],
    answer: &mut [u8],
) -> u32
    ensures { left result (rows.new ∷ []) answer.new ≡ dds_third_restore_two n first second rows.old answer.old }
{
    c_third::restore_two(n, first, second, rows, answer)
}

// With no row named, one wrong byte of each column mended.
#[unsafe(no_mangle)]
pub extern "C" fn dds_third_mend(n: u32, rows: &mut [u8], answer: &mut [u8]) -> u32
    ensures { left result (rows.new ∷ []) answer.new ≡ dds_third_mend n rows.old answer.old }
{
    c_third::mend(n, rows, answer)
}

// Volume Information from its fields.
#[unsafe(no_mangle)]
pub extern "C" fn dds_volume_make(fields: &[u8], volume: &mut [u8], answer: &mut [u8]) -> u32
    ensures { left result (volume.new ∷ []) answer.new ≡ dds_volume_make fields.now volume.old answer.old }
{
    c_loader::volume_make(fields, volume, answer)
}

// The fields of Volume Information.
#[unsafe(no_mangle)]
pub extern "C" fn dds_volume_read(volume: &[u8], fields: &mut [u8], answer: &mut [u8]) -> u32
    ensures { left result (fields.new ∷ []) answer.new ≡ dds_volume_read volume.now fields.old answer.old }
{
    c_loader::volume_read(volume, fields, answer)
}

// The eight bytes of the flags from two numbers.
#[unsafe(no_mangle)]
pub extern "C" fn dds_alert_make(high: u32, low: u32, alert: &mut [u8], answer: &mut [u8]) -> u32
    ensures { left result (alert.new ∷ []) answer.new ≡ dds_alert_make high low alert.old answer.old }
{
    c_loader::alert_make(high, low, alert, answer)
}

// The flags of eight bytes.
#[unsafe(no_mangle)]
pub extern "C" fn dds_alert_read(alert: &[u8], answer: &mut [u8]) -> u32
    ensures { left result [] answer.new ≡ dds_alert_read alert.now answer.old }
{
    c_loader::alert_read(alert, answer)
}

// The first place in received bytes where a message begins.
#[unsafe(no_mangle)]
pub extern "C" fn dds_radio_find(received: &[u8], answer: &mut [u8]) -> u32
    ensures { left result [] answer.new ≡ dds_radio_find received.now answer.old }
{
    c_loader::radio_find(received, answer)
}
