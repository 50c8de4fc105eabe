// The two arrays of a desk file: n figures, and n weights. An array starts at byte `from`, and is in the month order of a chart (METHOD 7.6); with one
// month in a year that is the order of t.
#![tactic(auto)]

ghost use Rattle.std.specs.Prelude.{◌++◌, ◌≡◌, ◌*◌, ◌+◌, ◌≤◌, drop, length};
ghost use Rattle.std.proofs.lemmas.List.Edits.{sets};
ghost use Rattle.refusals.specs.First.{first_failing};
ghost use Rattle.little_endian.specs.Bytes.{array, number_at};
ghost use Rattle.chart.specs.Chart.{month_order, order_of_t};
ghost use Rattle.desk_arrays.specs.Promises.{entries_at, numbers_at};

mod entry;

use chart::Chart;
pub use entry::Entry;

// The entry at place i.
fn stored<E: Entry>(file: &[u8], from: usize, i: usize) -> E
    requires { from + E.BYTES * (i + 1) ≤ length file.now }
    ensures { result ≡ E.decode (number_at file.now (from + E.BYTES * i) E.BYTES) }
{
    E::from_number(little_endian::number_at(file, from + E::BYTES * i, E::BYTES))
}

// Row 5 or 10, of an array in the file: nothing is filled before it is checked. The place that is told is the lowest bad t, not the first in the file.
// (The count stands for none while the months go by: an Option there takes 8 instructions more for each of them.)
pub fn first_bad<E: Entry>(file: &[u8], from: usize, chart: Chart) -> Option<usize>
    requires { from + E.BYTES * chart.count ≤ length file.now }
    ensures { result ≡ first_failing E.inside (order_of_t E.zero chart.period chart.start
        (entries_at E.BYTES E.decode file.now from chart.count)) }
{
    let mut lowest = chart.count;
    for (i, t) in chart.months() {
        if stored::<E>(file, from, i).outside() {
            lowest = lowest.min(t);
        }
    }
    (lowest < chart.count).then_some(lowest)
}

// Fills the first places of a slice, in order of t, from an array in the file.
pub fn get<E: Entry>(file: &[u8], from: usize, chart: Chart, values: &mut [E])
    requires { (from + E.BYTES * chart.count ≤ length file.now) × (chart.count ≤ length values.old) }
    ensures { values.new ≡ order_of_t E.zero chart.period chart.start (entries_at E.BYTES E.decode file.now from chart.count)
        ++ drop chart.count values.old }
{
    for (i, t) in chart.months() {
        values[t] = stored(file, from, i);
    }
}

// Writes an array into the output: at each place the value of the month that stands there.
pub fn put<E: Entry>(out: &mut [u8], from: usize, chart: Chart, values: &[E])
    requires { (from + E.BYTES * chart.count ≤ length out.old) × (length values.now ≡ chart.count) }
    ensures { out.new ≡ sets out.old from (array E.BYTES E.code (month_order E.zero chart.period chart.start values.now)) }
{
    let width = E::BYTES;
    for (i, t) in chart.months() {
        let number = values[t].to_number();
        little_endian::put_number(out, from + width * i, width, number);
    }
}

// Moves an array: in the file it is in the month order of a chart, in the output, from byte `to` on, in that of another.
pub fn move_array<E: Entry>(
    file: &[u8],
    from: usize,
    chart: Chart,
    out: &mut [u8],
    to: usize,
    other: Chart,
)
    requires { (from + E.BYTES * chart.count ≤ length file.now) × (to + E.BYTES * chart.count ≤ length out.old) × (other.count ≡ chart.count) }
    // The numbers, and so the entries that they stand for.
    ensures numbers { out.new ≡ sets out.old to (array E.BYTES (λ w. w) (month_order 0 other.period other.start
        (order_of_t 0 chart.period chart.start (numbers_at E.BYTES file.now from chart.count)))) }
    ensures entries { out.new ≡ sets out.old to (array E.BYTES E.code (month_order E.zero other.period other.start
        (order_of_t E.zero chart.period chart.start (entries_at E.BYTES E.decode file.now from chart.count)))) }
{
    let width = E::BYTES;
    for (i, t) in other.months() {
        let number = little_endian::number_at(file, from + width * chart.place(t), width);
        little_endian::put_number(out, to + width * i, width, number);
    }
}
