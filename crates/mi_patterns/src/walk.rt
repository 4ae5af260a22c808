//! A pattern against a text, with one way back: to the last `*` that was met, which is enough, since an earlier
//! one can end no better than where it ends.

ghost use Rattle.std.specs.Prelude.{◌≡◌, ◌==◌, ◌||◌, ◌∷◌, ℕ, List};
ghost use Rattle.mi_model.specs.Patterns.{matches};
ghost use Rattle.mi_patterns.specs.Walks.{Stands, Stepped, LaterOf};

// Where the last `*` stands that was met: the pattern behind it, and the text behind what it stands for so far.
#[derive(Clone, Copy)]
struct Way<'a> {
    pattern: &'a [char],
    text: &'a [char],
}

// What is still to be compared, and the way back, where a `*` was met.
#[derive(Clone, Copy)]
struct Walk<'a> {
    pattern: &'a [char],
    text: &'a [char],
    way: Option<Way<'a>>,
}

fn passes(wanted: char, c: char) -> bool
    ensures { result ≡ ((wanted == 63) || (c == wanted)) }
{
    wanted == '?' || c == wanted
}

// The walk once the last `*` stands for one character more, where it can.
fn later<'a>(walk: Walk<'a>) -> Option<Walk<'a>>
    ensures { LaterOf walk.entry result }
{
    let way = walk.way?;
    let (_, text) = way.text.split_first()?;
    let pattern = way.pattern;
    Some(Walk {
        pattern,
        text,
        way: Some(Way { pattern, text }),
    })
}

// The walk behind the next character of the pattern, or from the way back; none where the pattern isn't the text's.
// The text is given by its first character and the rest.
fn step<'a>(walk: Walk<'a>, c: char, rest: &'a [char]) -> Option<Walk<'a>>
    requires { walk.text.now ≡ c ∷ rest.now }
    ensures { (pattern text : List ℕ) → Stands pattern text walk.entry → Stepped pattern text walk.entry result }
{
    if let Some((wanted, pattern)) = walk.pattern.split_first() {
        if *wanted == '*' {
            let text = walk.text;
            let way = Some(Way { pattern, text });
            return Some(Walk { pattern, text, way });
        }
        if passes(*wanted, c) {
            let way = walk.way;
            return Some(Walk {
                pattern,
                text: rest,
                way,
            });
        }
    }
    later(walk)
}

// Whether the characters of a pattern are those of a text.
pub fn matches<'a>(pattern: &'a [char], text: &'a [char]) -> bool
    ensures { result ≡ matches pattern.now text.now }
{
    let mut walk = Walk {
        pattern,
        text,
        way: None,
    };
    while let Some((c, rest)) = walk.text.split_first() {
        match step(walk, *c, rest) {
            Some(next) => walk = next,
            None => return false,
        }
    }
    walk.pattern.iter().all(|wanted| *wanted == '*')
}
