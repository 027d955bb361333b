// The lines that stand alone: words parted by spaces, and the end of the line.
ghost use Rattle.std.specs.Prelude.{[], ◌∷◌};
ghost use Rattle.semantics.specs.Sheetlist.{decimal, line, dag_text, end_text, refused_text};
ghost use Rattle.answers.specs.Replies.{number_of};
ghost use Rattle.listing.specs.Putting.{Room, Writes};

use crate::output::Out;
use answers::Refusal;

impl<'a> Out<'a> {
    // The graph's numbers of nodes and constraints, and its largest offset.
    pub fn put_dag_line(&mut self, nodes: u32, constraints: u32, rotation: usize)
        requires { Room self.old (line (dag_text ∷ decimal nodes ∷ decimal constraints ∷ decimal rotation ∷ [])) }
        ensures { Writes self.old (line (dag_text ∷ decimal nodes ∷ decimal constraints ∷ decimal rotation ∷ [])) self.new }
    {
        self.put_text(b"dag");
        self.put_numbers(&[nodes as usize, constraints as usize, rotation]);
        self.put_byte(b'\n')
    }

    // A refusal's line: the step, a number and a place.
    pub fn put_refused_line(&mut self, step: &[u8], number: u32, place: usize)
        requires { Room self.old (line (refused_text ∷ step.now ∷ decimal number ∷ decimal place ∷ [])) }
        ensures { Writes self.old (line (refused_text ∷ step.now ∷ decimal number ∷ decimal place ∷ [])) self.new }
    {
        self.put_text(b"refused ");
        self.put_text(step);
        self.put_numbers(&[number as usize, place]);
        self.put_byte(b'\n')
    }

    // A refusal: the step, its number and its place.
    pub fn put_refused(&mut self, step: &[u8], refusal: Refusal)
        requires { Room self.old (line (refused_text ∷ step.now ∷ decimal (number_of refusal.reason) ∷ decimal refusal.place ∷ [])) }
        ensures { Writes self.old (line (refused_text ∷ step.now ∷ decimal (number_of refusal.reason) ∷ decimal refusal.place ∷ [])) self.new }
    {
        self.put_refused_line(step, refusal.reason.number(), refusal.place)
    }

    // The last line.
    pub fn put_end(&mut self)
        requires { Room self.old (line (end_text ∷ [])) }
        ensures { Writes self.old (line (end_text ∷ [])) self.new }
    {
        self.put_text(b"end\n")
    }
}
