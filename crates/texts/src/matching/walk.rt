// The match of a pattern with a text, byte by byte. Only the last star is ever tried again, so that the steps are at most
// about the product of the lengths: what an earlier star could take instead, the last one can take too.
ghost use Rattle.std.specs.Prelude.{◌≡◌, false, ◌≢◌, [], ◌∷◌};
ghost use Rattle.texts.specs.Matching.{matches as matches_text};
ghost use Rattle.texts.specs.Walks.{Sound, Stepped, Lengthened};

use super::super::segments::SLASH;
use std::ops::ControlFlow;

const STAR: u8 = b'*';

// The last star that was passed: the pattern behind it, and the text behind what it stands for. With no text left it can
// stand for nothing more: so it is where no star was passed, or a slash behind it.
#[derive(Clone, Copy)]
pub(crate) struct Star<'a> {
    pattern: &'a [u8],
    text: &'a [u8],
}

// How far the match has come: what is left of the pattern and of the text.
#[derive(Clone, Copy)]
pub(crate) struct Walk<'a> {
    pattern: &'a [u8],
    text: &'a [u8],
    star: Star<'a>,
}

// A match goes on, or it ends with the answer.
type Step<'a> = ControlFlow<bool, Walk<'a>>;

impl<'a> Walk<'a> {
    // One step of the match.
    fn step(self) -> Step<'a>
        requires { Sound self }
        ensures { Stepped self.entry result }
    {
        match self.pattern {
            [b, pattern @ ..] => {
                if *b == STAR {
                    self.behind_star(pattern)
                } else {
                    self.at_byte(*b, pattern)
                }
            }
            [] => self.at_end(),
        }
    }

    // A star stands for no byte at first.
    fn behind_star(self, pattern: &'a [u8]) -> Step<'a>
        requires sound { Sound self }
        requires here { self.pattern.now ≡ 42 ∷ pattern.now }
        ensures { Stepped self.entry result }
    {
        let star = Star {
            pattern,
            text: self.text,
        };
        ControlFlow::Continue(star.onward())
    }

    // At a byte of the pattern that is no star.
    fn at_byte(self, b: u8, pattern: &'a [u8]) -> Step<'a>
        requires sound { Sound self }
        requires here { self.pattern.now ≡ b ∷ pattern.now }
        requires plain { b ≢ 42 }
        ensures { Stepped self.entry result }
    {
        match self.text {
            [c, text @ ..] => {
                if b != *c {
                    return self.retry();
                }
                // No star stands for a slash, so behind one the stars before it are settled.
                let star = if b == SLASH {
                    self.star.settled()
                } else {
                    self.star
                };
                ControlFlow::Continue(Walk {
                    pattern,
                    text,
                    star,
                })
            }
            [] => self.retry(),
        }
    }

    // At the end of the pattern.
    fn at_end(self) -> Step<'a>
        requires sound { Sound self }
        requires done { self.pattern.now ≡ [] }
        ensures { Stepped self.entry result }
    {
        if self.text.is_empty() {
            return ControlFlow::Break(true);
        }
        self.retry()
    }

    // The pattern does not match from here on: the last star is to stand for one byte more.
    fn retry(self) -> Step<'a>
        requires { matches_text self.pattern.now self.text.now ≡ false }
        ensures { Stepped self.entry result }
    {
        self.star.longer()
    }
}

impl<'a> Star<'a> {
    // The match goes on behind the star.
    fn onward(self) -> Walk<'a>
        ensures { result ≡ record { pattern = self.entry.pattern; text = self.entry.text; star = self.entry } }
    {
        Walk {
            pattern: self.pattern,
            text: self.text,
            star: self,
        }
    }

    // The star that can stand for nothing more.
    fn settled(self) -> Star<'a>
        ensures { result.text.now ≡ [] }
    {
        Star {
            pattern: self.pattern,
            text: &self.text[..0],
        }
    }

    // The star stands for one byte more, unless a slash or the end of the text comes.
    fn longer(self) -> Step<'a>
        ensures { Lengthened self.entry result }
    {
        match self.text {
            [c, text @ ..] => {
                if *c == SLASH {
                    return ControlFlow::Break(false);
                }
                let longer = Star {
                    pattern: self.pattern,
                    text,
                };
                ControlFlow::Continue(longer.onward())
            }
            [] => ControlFlow::Break(false),
        }
    }
}

// Whether the pattern, as it is written, matches the text.
pub(crate) fn matches<'a>(pattern: &'a [u8], text: &'a [u8]) -> bool
    ensures { result ≡ matches_text pattern.now text.now }
{
    let star = Star { pattern, text };
    let mut walk = Walk {
        pattern,
        text,
        star: star.settled(),
    };
    loop {
        match walk.step() {
            ControlFlow::Continue(next) => walk = next,
            ControlFlow::Break(answer) => return answer,
        }
    }
}
