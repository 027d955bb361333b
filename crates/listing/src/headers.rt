// Headers, each with its terms.
ghost use Rattle.std.specs.Prelude.{◌≡◌, length};
ghost use Rattle.listing.specs.Putting.{Room, Writes};
ghost use Rattle.listing.specs.Families.{letter_of, width_of, term_lines, header_line, header_of, family_lines, HeaderInside, HeadersInside};

use crate::output::Out;
use grouping::Family;

// The letter of a family's headers.
fn letter(family: Family) -> u8
    ensures { result ≡ letter_of family }
{
    match family {
        Family::Constraints => b'm',
        Family::Counts => b'n',
        Family::Fields => b'd',
    }
}

// The three lists of a family, as words.
#[derive(Clone, Copy)]
pub struct Lists<'a> {
    pub headers: &'a [u32],
    pub variables: &'a [u32],
    pub terms: &'a [u32],
}

impl<'a> Out<'a> {
    // The lines of terms, from their words.
    fn put_terms(&mut self, family: Family, terms: &[u32])
        requires { Room self.old (term_lines family terms.now) }
        ensures { Writes self.old (term_lines family terms.now) self.new }
    {
        for term in terms.chunks_exact(family.width()) {
            self.put_term(family, term);
        }
    }

    // A header's line: its letter and its variables.
    fn put_header_line(&mut self, letter: u8, variables: &[u32])
        requires { Room self.old (header_line letter variables.now) }
        ensures { Writes self.old (header_line letter variables.now) self.new }
    {
        self.put_byte(letter);
        self.put_variables(variables);
        self.put_byte(b'\n')
    }

    // A header of four words, with its variables and its terms of the lists.
    fn put_header(&mut self, family: Family, header: &[u32], lists: Lists)
        requires { (length header.now ≡ 4) × HeaderInside (width_of family) header.now lists.variables.now lists.terms.now
            × Room self.old (header_of family lists.variables.now lists.terms.now header.now) }
        ensures { Writes self.old (header_of family lists.entry.variables.now lists.entry.terms.now header.now) self.new }
    {
        let step = family.width();
        let vars = header[0] as usize;
        let first = step * header[1] as usize;
        let num_vars = header[2] as usize;
        let num_words = step * header[3] as usize;
        self.put_header_line(letter(family), &lists.variables[vars..vars + num_vars]);
        self.put_terms(family, &lists.terms[first..first + num_words])
    }

    // All headers of a family.
    pub fn put_headers(&mut self, family: Family, lists: Lists)
        requires { HeadersInside (width_of family) lists.headers.now lists.variables.now lists.terms.now
            × Room self.old (family_lines family lists.headers.now lists.variables.now lists.terms.now) }
        ensures { Writes self.old
            (family_lines family lists.entry.headers.now lists.entry.variables.now lists.entry.terms.now) self.new }
    {
        for header in lists.headers.chunks_exact(4) {
            self.put_header(family, header, lists);
        }
    }
}
