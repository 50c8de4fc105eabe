// A file in either form, whose sizes are right: read into slices, checked, and moved into the other form.
ghost use Rattle.desk_forms.specs.Forms.{Sized};

use crate::Form;
use crate::dated::put_front;

// So many months from a start month, and the first year: its own, or the one that is given where its form has none.
#[derive(Clone, Copy)]
pub struct SizedFile<'a> {
    pub bytes: &'a [u8],
    pub form: Form,
    pub count: usize,
    pub start: u8,
    pub year: u16,
    ghost sized: { Sized form bytes.now count start },
}

impl<'a> SizedFile<'a> {
    ghost use Rattle.std.specs.Prelude.{◌++◌, ◌≡◌, ◌≤◌, drop, length};
    ghost use Rattle.refusals.specs.First.{first_above, first_outside};
    ghost use Rattle.desk_forms.specs.Header.{length_for};
    ghost use Rattle.desk_forms.specs.Forms.{bytes_in, front_of, meaning_of};

    // Row 5, of the figures: the lowest bad t.
    pub fn first_outside(self) -> Option<usize>
        ensures { result ≡ first_outside (meaning_of self.entry.form self.entry.bytes.now).figures }
    {
        let chart = self.form.chart(self.count, self.start);
        desk_arrays::first_bad::<i32>(self.bytes, self.form.front(), chart)
    }

    // Row 10, of the weights.
    pub fn first_above(self) -> Option<usize>
        ensures { result ≡ first_above (meaning_of self.entry.form self.entry.bytes.now).weights }
    {
        let chart = self.form.chart(self.count, self.start);
        desk_arrays::first_bad::<u16>(self.bytes, self.form.weights(self.count), chart)
    }

    // Fills the first places of both slices, in order of t; the rest stays.
    pub fn fill(self, figures: &mut [i32], weights: &mut [u16])
        requires { (self.count ≤ length figures.old) × (self.count ≤ length weights.old) }
        ensures { (figures.new ≡ (meaning_of self.entry.form self.entry.bytes.now).figures ++ drop self.entry.count figures.old)
            × (weights.new ≡ (meaning_of self.entry.form self.entry.bytes.now).weights ++ drop self.entry.count weights.old) }
    {
        let chart = self.form.chart(self.count, self.start);
        desk_arrays::get(self.bytes, self.form.front(), chart, figures);
        desk_arrays::get(self.bytes, self.form.weights(self.count), chart, weights);
    }

    // Writes the file of the same series in another form; the rest of the output stays. (Inlined, so that both orders are known: moving forward takes half of
    // the instructions.)
    #[inline(always)]
    pub fn move_into(self, other: Form, out: &mut [u8])
        requires { length_for (front_of other) self.count ≤ length out.old }
        ensures { out.new ≡ bytes_in other self.entry.year (meaning_of self.entry.form self.entry.bytes.now)
            ++ drop (length_for (front_of other) self.entry.count) out.old }
    {
        let n = self.count;
        let from = self.form.chart(n, self.start);
        let to = other.chart(n, self.start);
        put_front(out, other, n, self.start, self.year);
        desk_arrays::move_array::<i32>(self.bytes, self.form.front(), from, out, other.front(), to);
        desk_arrays::move_array::<u16>(
            self.bytes,
            self.form.weights(n),
            from,
            out,
            other.weights(n),
            to,
        );
    }
}
