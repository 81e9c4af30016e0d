ghost use Rattle.std.specs.Prelude.{◌≡◌, ◌==◌, ◌||◌, ◌<◌, ◌≤◌, ◌+◌, ◌^◌, ◌++◌, ◌∷◌, [], filter, length, nat_lt, if◌then◌else◌, slice_get};
ghost use Rattle.std.specs.Option.{option_copied};
ghost use Rattle.fx_text.specs.Fields.{fields_of, field_at, has_bytes, is_blank, is_comment, is_end};

use std::marker::Model;

/// How many fields of a line are kept.
const MOST_KEPT: usize = 8;

/// The fields of a line. They are counted all, and the first eight can be read.
#[derive(Drop)]
pub struct Fields<'a> {
    line: &'a [u8],
    kept: Kept<'a>,
}

impl<'a> Model for Fields<'a> {
    ghost use Rattle.std.specs.Prelude.{List, ℕ};
    ghost use Rattle.fx_text.specs.Fields.{fields_of};
    ghost use Rattle.fx_text.specs.inside.Fields.{Keeps};

    ghost Value = { List (List ℕ) };

    ghost view = { λ f. fields_of f.line.now };

    ghost invariant = { λ f. Keeps f.kept (fields_of f.line.now) };
}

/// How many fields there are, and the first eight of them.
#[derive(Drop)]
struct Kept<'a> {
    first: [&'a [u8]; MOST_KEPT],
    count: usize,
}

impl<'a> Kept<'a> {
    ghost use Rattle.std.specs.Prelude.{List, ℕ};
    ghost use Rattle.fx_text.specs.inside.Fields.{Keeps};

    fn none() -> Kept<'a>
        ensures { Keeps result [] }
    {
        Kept {
            first: [&[]; MOST_KEPT],
            count: 0,
        }
    }

    // Counts a part of a line as a field, where it has a byte.
    fn add(&mut self, part: &'a [u8])
        requires { self.old.count < 2 ^ 63 }
        ensures kept { (seen : List (List ℕ)) → Keeps self.old seen → Keeps self.new (seen ++ filter has_bytes (part.now ∷ [])) }
        ensures counted { self.new.count ≤ self.old.count + 1 }
    {
        if part.is_empty() {
            return;
        }
        if self.count < MOST_KEPT {
            self.first[self.count] = part;
        }
        self.count += 1;
    }
}

pub(crate) fn is_comment(field: &[u8]) -> bool
    ensures { result ≡ is_comment field.now }
{
    field.first() == Some(&b'#')
}

fn is_blank(byte: u8) -> bool
    ensures { result ≡ is_blank byte }
{
    byte == b' ' || byte == b'\t'
}

impl<'a> Fields<'a> {
    /// The fields of an empty line: none.
    pub fn none() -> Fields<'a>
        ensures { result ≡ [] }
    {
        Fields {
            line: &[],
            kept: Kept::none(),
        }
    }

    pub(crate) fn of(line: &'a [u8]) -> Fields<'a>
        ensures { result ≡ fields_of line.now }
    {
        let mut fields = Fields::none();
        fields.read(line);
        fields
    }

    /// Takes the fields of a line in place of those that were there. Takes no memory, and looks at each byte once.
    pub fn read(&mut self, line: &'a [u8])
        ensures { self.new ≡ fields_of line.now }
    {
        self.kept.count = 0;
        let mut start = 0;
        for (at, byte) in line.iter().enumerate() {
            if is_blank(*byte) {
                self.kept.add(&line[start..at]);
                start = at + 1;
            }
        }
        self.kept.add(&line[start..]);
        self.line = line;
    }

    /// How many fields the line has.
    pub fn count(&self) -> usize
        ensures { result ≡ length self.now }
    {
        self.kept.count
    }

    /// The field at a place from 0; `None` where there is none, and from the ninth on.
    pub fn get(&self, at: usize) -> Option<&'a [u8]>
        ensures { option_copied result ≡ (if nat_lt at 8 then slice_get self.now at else None) }
    {
        if at < MOST_KEPT && at < self.kept.count {
            Some(self.kept.first[at])
        } else {
            None
        }
    }

    /// The field at a place from 0, of the first eight.
    pub fn field(&self, at: usize) -> &'a [u8]
        requires kept { at < 8 }
        requires there { at < length self.now }
        ensures { result.now ≡ field_at self.now at }
    {
        self.kept.first[at]
    }

    /// Whether the line is ignored: it has no field, or its first field begins with `#`.
    pub fn is_passed_over(&self) -> bool
        ensures { result ≡ (length self.now == 0) || is_comment (field_at self.now 0) }
    {
        self.kept.count == 0 || is_comment(self.field(0))
    }

    /// Whether `END` is the only field.
    pub fn is_end(&self) -> bool
        ensures { result ≡ is_end self.now }
    {
        self.kept.count == 1 && self.field(0) == b"END".as_slice()
    }

    /// The first field, or nothing where the line has none.
    pub fn first(&self) -> &'a [u8]
        ensures { result.now ≡ field_at self.now 0 }
    {
        if self.kept.count == 0 {
            &[]
        } else {
            self.field(0)
        }
    }
}
