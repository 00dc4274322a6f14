// What is expanded (002 section 11.3.2): a label, and behind it a seed in three pieces.
ghost use Rattle.std.specs.Prelude.{◌≡◌, List, ℕ, ◌++◌, ◌≤◌, length, IfSome};
ghost use Rattle.digest.specs.Bytes.{laid_over};
ghost use Rattle.digest.specs.Hmac.{code_under};

use crate::bytes::lay;
use crate::key::Key;
use std::marker::Model;

#[derive(Drop)]
pub(crate) struct Seed<'a> {
    label: &'a [u8],
    first: &'a [u8],
    second: &'a [u8],
    third: &'a [u8],
}

impl<'a> Model for Seed<'a> {
    // All its bytes, in order.
    ghost Value = { List ℕ };

    ghost view = { λ s. s.label.now ++ (s.first.now ++ s.second.now ++ s.third.now) };
}

impl<'a> Seed<'a> {
    pub(crate) fn new(
        label: &'a [u8],
        first: &'a [u8],
        second: &'a [u8],
        third: &'a [u8],
    ) -> Seed<'a>
        ensures { result ≡ label.now ++ (first.now ++ second.now ++ third.now) }
    {
        Seed {
            label,
            first,
            second,
            third,
        }
    }

    // How many bytes it has, where a machine's number tells.
    pub(crate) fn size(&self) -> Option<usize>
        ensures { IfSome result (λ n. length self.now ≡ n) }
    {
        let one = self.label.len().checked_add(self.first.len())?;
        let two = one.checked_add(self.second.len())?;
        two.checked_add(self.third.len())
    }

    // Laid over the front of d.
    pub(crate) fn lay(&self, d: &mut [u8])
        requires { length self.now ≤ length d.old }
        ensures { d.new ≡ laid_over d.old 0 self.now }
    {
        lay(d, 0, self.label);
        let one = self.label.len();
        lay(d, one, self.first);
        let two = one + self.first.len();
        lay(d, two, self.second);
        lay(d, two + self.second.len(), self.third);
    }

    // The code of a piece in front, with the label and the seed behind it.
    pub(crate) fn code(&self, key: Key, front: &[u8]) -> [u8; 20]
        ensures { result ≡ code_under key (front.now ++ self.now) }
    {
        let mut g = key.begin();
        g = g.update(front);
        g = g.update(self.label);
        g = g.update(self.first);
        g = g.update(self.second);
        g = g.update(self.third);
        key.end(g)
    }
}
