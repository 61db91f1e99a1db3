// The engine's exports for C, for bench/ and tests: each hands on to the engine's function of its name, and promises the same.
// A crate of its own, since a crate is a library or a static library.
#![tactic(auto)]

ghost use Rattle.engine.specs.Answers.{Eliminates, FirstSets, Bases};

#[unsafe(no_mangle)]
pub extern "C" fn dayunglipo_engine_eliminate(
    buf: &mut [u64],
    rows: usize,
    stride: usize,
    width: usize,
    lead: usize,
    slots: &mut [usize],
) -> usize
    ensures { Eliminates buf.old rows stride width lead slots.old buf.new slots.new result }
{
    engine::dayunglipo_engine_eliminate(buf, rows, stride, width, lead, slots)
}

#[unsafe(no_mangle)]
pub extern "C" fn dayunglipo_engine_first_set(
    buf: &mut [u64],
    rows: usize,
    stride: usize,
    width: usize,
    lead: usize,
    slots: &mut [usize],
) -> usize
    ensures { FirstSets buf.old rows stride width lead slots.old buf.new slots.new result }
{
    engine::dayunglipo_engine_first_set(buf, rows, stride, width, lead, slots)
}

#[unsafe(no_mangle)]
pub extern "C" fn dayunglipo_engine_basis(
    buf: &mut [u64],
    rows: usize,
    stride: usize,
    width: usize,
    k: usize,
) -> usize
    ensures { Bases buf.old rows stride width k buf.new result }
{
    engine::dayunglipo_engine_basis(buf, rows, stride, width, k)
}
