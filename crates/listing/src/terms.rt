// The lines of terms.
ghost use Rattle.std.specs.Prelude.{◌≡◌, length};
ghost use Rattle.listing.specs.Putting.{Room, Writes};
ghost use Rattle.listing.specs.Families.{width_of, line_of, term_line};

use crate::output::Out;
use grouping::Family;

impl<'a> Out<'a> {
    // A letter, numbers and a coefficient.
    fn put_term_line(&mut self, letter: u8, numbers: &[usize], coefficient: u32)
        requires { Room self.old (term_line letter numbers.now coefficient) }
        ensures { Writes self.old (term_line letter numbers.now coefficient) self.new }
    {
        self.put_byte(letter);
        self.put_numbers(numbers);
        self.put_byte(b' ');
        self.put_signed(coefficient);
        self.put_byte(b'\n')
    }

    // A term: a constraint's has its index and its coefficient; a count's its coefficient and its interaction;
    // a field's its coefficient, its interaction and its place in the message.
    pub(crate) fn put_term(&mut self, family: Family, term: &[u32])
        requires { (length term.now ≡ width_of family) × Room self.old (line_of family term.now) }
        ensures { Writes self.old (line_of family term.now) self.new }
    {
        match family {
            Family::Constraints => self.put_term_line(b't', &[term[0] as usize], term[1]),
            Family::Counts => self.put_term_line(b'u', &[term[1] as usize], term[0]),
            Family::Fields => {
                self.put_term_line(b'w', &[term[1] as usize, term[2] as usize], term[0])
            }
        }
    }
}
