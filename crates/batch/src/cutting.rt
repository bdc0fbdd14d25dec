// A text cut into lines and fields, each byte looked at once.
ghost use Rattle.std.specs.Prelude.{◌≡◌, ◌≤◌, ◌∷◌, length};
ghost use Rattle.batch.specs.Parts.{fields, first_line, after_line, first_field};
ghost use Rattle.batch.specs.Cuts.{fields_in, after_in, field_total, Lists};

// What a line goes on with, after its mark or one of its fields.
#[derive(Clone, Copy, Debug)]
pub enum Next<'a> {
    // A comma came: the text from the next field on.
    Field(&'a [u8]),
    // The line ended: the text after it.
    Line(&'a [u8]),
}

// A text cut at the first comma or line feed.
#[derive(Clone, Copy, Debug)]
struct Cut<'a> {
    field: &'a [u8],
    next: Next<'a>,
}

// The fields after the mark, where no line of a batch has more than three. Not an array with a length, so that a rule
// gets its fields by name, and a wrong count has none.
#[derive(Clone, Copy, Debug)]
pub enum Fields<'a> {
    Zero,
    One(&'a [u8]),
    Two(&'a [u8], &'a [u8]),
    Three(&'a [u8], &'a [u8], &'a [u8]),
    More,
}

// The fields after the mark, and what comes after the line, if it has at most three of them.
#[derive(Clone, Copy, Debug)]
pub struct Line<'a> {
    pub fields: Fields<'a>,
    pub rest: &'a [u8],
}

// How many bytes stand before the first comma or line feed.
fn stop(text: &[u8]) -> usize
    ensures front { result ≡ length (first_field text.now) }
    ensures within { result ≤ length text.now }
{
    text.iter()
        .position(|c| *c == b',' || *c == b'\n')
        .unwrap_or(text.len())
}

fn first_field(text: &[u8]) -> Cut<'_>
    ensures fields { fields (first_line text.now) ≡ result.field.now ∷ fields_in result.next }
    ensures after { after_line text.now ≡ after_in result.next }
{
    let (field, rest) = text.split_at(stop(text));
    match rest {
        [b',', rest @ ..] => Cut {
            field,
            next: Next::Field(rest),
        },
        [_, rest @ ..] => Cut {
            field,
            next: Next::Line(rest),
        },
        [] => Cut {
            field,
            next: Next::Line(rest),
        },
    }
}

// The rest of a line, field by field: each of the three has its own place in `Fields`.
pub(crate) fn line_from(next: Next<'_>) -> Line<'_>
    ensures fields { Lists result.fields (fields_in next.entry) }
    ensures rest { length (fields_in next.entry) ≤ 3 → result.rest.now ≡ after_in next.entry }
{
    let text = match next {
        Next::Line(rest) => return Line {
            fields: Fields::Zero,
            rest,
        },
        Next::Field(text) => text,
    };
    let first = first_field(text);
    let text = match first.next {
        Next::Line(rest) => return Line {
            fields: Fields::One(first.field),
            rest,
        },
        Next::Field(text) => text,
    };
    let second = first_field(text);
    let text = match second.next {
        Next::Line(rest) => return Line {
            fields: Fields::Two(first.field, second.field),
            rest,
        },
        Next::Field(text) => text,
    };
    let third = first_field(text);
    match third.next {
        Next::Line(rest) => Line {
            fields: Fields::Three(first.field, second.field, third.field),
            rest,
        },
        Next::Field(rest) => Line {
            fields: Fields::More,
            rest,
        },
    }
}

impl Fields<'_> {
    pub(crate) fn count(&self) -> usize
        ensures { result ≡ field_total self.now }
    {
        match self {
            Fields::Zero => 0,
            Fields::One(_) => 1,
            Fields::Two(_, _) => 2,
            Fields::Three(_, _, _) => 3,
            Fields::More => 4,
        }
    }
}
