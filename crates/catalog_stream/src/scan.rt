// Where the brackets of an object close.
ghost use Rattle.std.specs.Prelude.{List, ℕ, ◌≡◌, ◌<◌, ◌↔◌, length};
ghost use Rattle.catalog_stream.specs.Depth as spec;
ghost use Rattle.catalog_stream.specs.declared.scan.Extent.{Extent};

/// What the next byte stands in.
#[derive(Clone, Copy, Debug, PartialEq, Eq)]
pub enum Mode {
    Outside,
    Quoted,
    /// In a string, right behind a backslash that takes the next byte.
    Escaped,
}

/// What was seen up to some place.
#[derive(Clone, Copy, Debug, PartialEq, Eq)]
pub struct Seen {
    pub mode: Mode,
    pub depth: u32,
}

/// Where the brackets of a text close, or open too deep, as numbers of bytes from its beginning.
#[derive(Clone, Copy, Debug, PartialEq, Eq)]
pub enum Extent {
    /// Behind so many bytes.
    Ends(usize),
    /// Never before the bracket at this place, which is one too many.
    Deep(usize),
    /// Not in this text.
    Open,
}

/// How many brackets are open where one is too many: the kit's JSON reader goes 127 levels deep.
const TOO_DEEP: u32 = 128;

fn mode_after(mode: Mode, byte: u8) -> Mode
    ensures { result ≡ spec.mode_after mode byte }
{
    match mode {
        Mode::Outside => {
            if byte == b'"' {
                Mode::Quoted
            } else {
                Mode::Outside
            }
        }
        Mode::Quoted => {
            if byte == b'\\' {
                Mode::Escaped
            } else if byte == b'"' {
                Mode::Outside
            } else {
                Mode::Quoted
            }
        }
        Mode::Escaped => Mode::Quoted,
    }
}

fn depth_after(mode: Mode, depth: u32, byte: u8) -> u32
    requires { depth < 128 }
    ensures { result ≡ spec.depth_after mode depth byte }
{
    match mode {
        Mode::Outside => match byte {
            b'{' | b'[' => depth + 1,
            b'}' | b']' => depth.saturating_sub(1),
            _ => depth,
        },
        Mode::Quoted | Mode::Escaped => depth,
    }
}

fn step(seen: Seen, byte: u8) -> Seen
    requires { seen.depth < 128 }
    ensures { result ≡ spec.step seen byte }
{
    Seen {
        mode: mode_after(seen.mode, byte),
        depth: depth_after(seen.mode, seen.depth, byte),
    }
}

/// Where the brackets that open in `rest` close. It goes over the bytes once, and no further than to that place.
#[tactic(auto, using(crate::proofs::Scanning::scanned))]
pub fn find_extent(rest: &[u8]) -> Extent
    ensures extent { result ≡ spec.extent rest.now }
    ensures within { spec.IsWithin (length rest.now) result }
{
    let mut seen = Seen {
        mode: Mode::Outside,
        depth: 0,
    };
    for (at, byte) in rest.iter().enumerate() {
        seen = step(seen, *byte);
        if seen.depth == 0 {
            return Extent::Ends(at + 1);
        }
        if seen.depth == TOO_DEEP {
            return Extent::Deep(at);
        }
    }
    Extent::Open
}

/// The law of extents: an extent is that of a text exactly where the depths at the text's places say so.
pub fn extent_law()
    ensures { (text : List ℕ) (extent : Extent) → (spec.extent text ≡ extent) ↔ spec.IsExtent text extent }
{}
