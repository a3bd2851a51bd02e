// The walks over the objects of an image, from a position on and back.
#![tactic(auto)]

ghost use Rattle.std.specs.Prelude.{ℕ, List, ◌≡◌, ◌<◌, ◌≤◌};
ghost use Rattle.image.specs.Image.{count, objects};
ghost use Rattle.objects.specs.Object.{Object};
ghost use Rattle.objects.specs.Movement.{walk};
ghost use Rattle.walks.specs.Walks.{code_of, counts, walk_of};
ghost use Rattle.walks.specs.Directions.{DirectionLaws, ahead_on, reach_on, number_on, ahead_back, reach_back, number_back};
ghost use Rattle.walks.specs.Laws.{on_laws, back_laws};

use image::Image;
use std::marker::PhantomData;

// What a walk counts. Over blocks a filemark ends it; over filemarks blocks are passed.
#[derive(Clone, Copy, Debug, PartialEq, Eq)]
pub enum Counted {
    Blocks,
    Filemarks,
}

impl Counted {
    // Whether an object is counted, which is a filemark or a block.
    fn counts(self, is_filemark: bool) -> bool
        ensures { result ≡ counts (code_of self) is_filemark }
    {
        match self {
            Counted::Blocks => !is_filemark,
            Counted::Filemarks => is_filemark,
        }
    }
}

// Why a walk ends: all that was asked for is counted, a filemark was crossed that was not, nothing more lies ahead.
#[derive(Clone, Copy, Debug, PartialEq, Eq)]
pub enum Why {
    Done,
    Marked,
    Edge,
}

// How many objects were crossed, how many of them were counted, and why the walk ended.
#[derive(Clone, Copy, Debug, PartialEq, Eq)]
pub struct Walked {
    pub crossed: u32,
    pub counted: u32,
    pub why: Why,
}

// Which way a walk goes.
pub trait Direction {
    // The objects that lie ahead of a position, the nearest first.
    ghost ahead: { ℕ → List Object → List Object };

    // Of so many objects, how many lie ahead of a position, and the number of the k-th of these.
    ghost reach: { ℕ → ℕ → ℕ };

    ghost number: { ℕ → ℕ → ℕ → ℕ };

    // What each `impl` must prove.
    ghost laws: { DirectionLaws ahead reach number };

    fn reach(p: u32, count: u32) -> u32
        requires { p ≤ count }
        ensures { result ≡ reach p count };

    fn number(p: u32, count: u32, k: u32) -> u32
        requires { k < reach p count }
        ensures { result ≡ number p count k };
}

// A direction that makes the number in the width of an index, so that a walk steps through the directory.
pub trait Indexed: Direction {
    fn number_as_index(p: u32, count: u32, k: u32) -> usize
        requires { k < Self.reach p count }
        ensures { result ≡ Self.number p count k };
}

// From a position to end of data.
pub struct On;

impl Direction for On {
    ghost ahead = { ahead_on };

    ghost reach = { reach_on };

    ghost number = { number_on };

    ghost laws = { on_laws };

    fn reach(p: u32, count: u32) -> u32 {
        count - p
    }

    fn number(p: u32, count: u32, k: u32) -> u32 {
        On::number_as_index(p, count, k) as u32
    }
}

impl Indexed for On {
    fn number_as_index(p: u32, _count: u32, k: u32) -> usize {
        p as usize + k as usize
    }
}

// From a position to the beginning.
pub struct Back;

impl Direction for Back {
    ghost ahead = { ahead_back };

    ghost reach = { reach_back };

    ghost number = { number_back };

    ghost laws = { back_laws };

    fn reach(p: u32, _count: u32) -> u32 {
        p
    }

    fn number(p: u32, count: u32, k: u32) -> u32 {
        Back::number_as_index(p, count, k) as u32
    }
}

impl Indexed for Back {
    fn number_as_index(p: u32, _count: u32, k: u32) -> usize {
        p as usize - (k as usize + 1)
    }
}

// The walk of one kind: where it is called `what` is a constant, so no turn of the loop tests it.
#[inline(always)]
fn walk_over<W: Indexed>(image: &Image, p: u32, what: Counted, n: u32) -> Walked
    requires { p ≤ count image.now.bytes }
    ensures { walk_of result ≡ walk (code_of what) n (W.ahead p (objects image.now.bytes)) }
{
    let count = image.count();
    let reach = W::reach(p, count);
    let mut left = n;
    for k in 0..reach {
        if left == 0 {
            return Walked {
                crossed: k,
                counted: n - left,
                why: Why::Done,
            };
        }
        let is_filemark = image.is_filemark(W::number_as_index(p, count, k));
        if what.counts(is_filemark) {
            left -= 1;
        } else if is_filemark {
            return Walked {
                crossed: k + 1,
                counted: n - left,
                why: Why::Marked,
            };
        }
    }
    Walked {
        crossed: reach,
        counted: n - left,
        why: if left == 0 { Why::Done } else { Why::Edge },
    }
}

// From p over n of what is counted. Out of line, its loops are compiled alike for every caller.
#[inline(never)]
pub fn walk_by_index<W: Indexed>(image: &Image, p: u32, what: Counted, n: u32) -> Walked
    requires { p ≤ count image.now.bytes }
    ensures { walk_of result ≡ walk (code_of what) n (W.ahead p (objects image.now.bytes)) }
{
    match what {
        Counted::Blocks => walk_over::<W>(image, p, Counted::Blocks, n),
        Counted::Filemarks => walk_over::<W>(image, p, Counted::Filemarks, n),
    }
}

// A direction with its number widened to an index: so `walk` takes one that is not `Indexed`.
struct Widened<W> {
    direction: PhantomData<W>,
}

impl<W: Direction> Direction for Widened<W> {
    ghost ahead = { W.ahead };

    ghost reach = { W.reach };

    ghost number = { W.number };

    ghost laws = { W.laws };

    fn reach(p: u32, count: u32) -> u32 {
        W::reach(p, count)
    }

    fn number(p: u32, count: u32, k: u32) -> u32 {
        W::number(p, count, k)
    }
}

impl<W: Direction> Indexed for Widened<W> {
    fn number_as_index(p: u32, count: u32, k: u32) -> usize {
        W::number(p, count, k) as usize
    }
}

// From p over n of what is counted, in any direction. The programs go by `walk_by_index`.
pub fn walk<W: Direction>(image: &Image, p: u32, what: Counted, n: u32) -> Walked
    requires { p ≤ count image.now.bytes }
    ensures { walk_of result ≡ walk (code_of what) n (W.ahead p (objects image.now.bytes)) }
{
    walk_by_index::<Widened<W>>(image, p, what, n)
}

#[cfg(test)]
mod tests {
    use super::*;
    use image::is_sound;
    use std::test::Fail;

    // The direction of `On`, by an `impl` of `Direction` alone.
    struct Onward;

    impl Direction for Onward {
        ghost ahead = { ahead_on };

        ghost reach = { reach_on };

        ghost number = { number_on };

        ghost laws = { on_laws };

        fn reach(p: u32, n: u32) -> u32 {
            n - p
        }

        fn number(p: u32, _n: u32, k: u32) -> u32 {
            k + p
        }
    }

    // Of ten objects, from position 3: the nearest on and back, and the last each way.
    #[test]
    fn numbers(rt: HostRuntime) -> Result<(), Fail> {
        assert_eq!(rt; On::number(3, 10, 0), 3);
        assert_eq!(rt; On::number(3, 10, 6), 9);
        assert_eq!(rt; On::number_as_index(3, 10, 6), 9);
        assert_eq!(rt; Back::number(3, 10, 0), 2);
        assert_eq!(rt; Back::number(3, 10, 2), 0);
        assert_eq!(rt; Back::number_as_index(3, 10, 2), 0);
        assert_eq!(rt; Onward::number(3, 10, 6), 9);
        Ok(())
    }

    // A block of two bytes, a filemark and a block of one byte, whose entries stand from the back; then N, D and L.
    #[test]
    fn walks_alike(rt: HostRuntime) -> Result<(), Fail> {
        let mut bytes = [0; 64];
        bytes[39] = 3;
        bytes[40] = 0x80;
        bytes[43] = 2;
        bytes[47] = 2;
        bytes[51] = 3;
        bytes[59] = 36;
        bytes[63] = 64;
        assert!(rt; is_sound(&bytes));
        let image = Image::of(&bytes);
        let end = image.count();
        assert_eq!(rt; end, 3);
        let marked = Walked {
            crossed: 2,
            counted: 1,
            why: Why::Marked,
        };
        assert_eq!(rt; walk_by_index::<On>(&image, 0, Counted::Blocks, 2), marked);
        assert_eq!(rt; walk::<On>(&image, 0, Counted::Blocks, 2), marked);
        assert_eq!(rt; walk::<Onward>(&image, 0, Counted::Blocks, 2), marked);
        assert_eq!(rt; walk::<Back>(&image, end, Counted::Blocks, 2), marked);
        let all = Walked {
            crossed: 3,
            counted: 1,
            why: Why::Edge,
        };
        assert_eq!(rt; walk::<Onward>(&image, 0, Counted::Filemarks, 2), all);
        assert_eq!(rt; walk::<Back>(&image, end, Counted::Filemarks, 2), all);
        Ok(())
    }
}
