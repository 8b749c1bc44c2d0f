// What is awaited of a reply.
ghost use Rattle.std.specs.Prelude.{◌≡◌, ◌+◌, ◌<◌, ◌^◌, drop, IfSome};
ghost use Rattle.record.specs.Machine.{waiting, some};
ghost use Rattle.marker.specs.Steps.{awaited, front, heard};

use super::Waits;
use deck::Sent;
use packed::Packed;

impl Waits {
    // Whether any byte is still to come.
    pub(super) fn any(self) -> bool
        ensures { result ≡ some (awaited self).left }
    {
        self.left != 0
    }

    // The next byte.
    pub(super) fn next(self) -> Option<u8>
        ensures { result ≡ front (awaited self).left }
    {
        if !self.any() {
            return None;
        }
        Some(self.reply.first())
    }

    // A byte has come.
    pub(super) fn taken(self, time: u64) -> Waits
        requires { time < 2 ^ 48 }
        ensures { awaited result ≡ waiting (drop 1 (awaited self).left) (time + 10000) }
    {
        let (reply, left) = match self.left {
            0 => (self.reply, 0),
            1..=8 => (self.reply.low_rest(), self.left - 1),
            // A count over 24 stands for 24.
            _ => (self.reply.rest(), self.left.min(24) - 1),
        };
        Waits {
            reply,
            left,
            latest: time + 10000,
        }
    }

    // The deck has sent a reply, which stands at the front of the output, or none.
    pub(super) fn after(self, sent: Option<Sent>, out: [u8; 24]) -> Waits
        requires { IfSome sent (λ s. s.due < 2 ^ 48) }
        ensures { awaited result ≡ heard sent out (awaited self) }
    {
        match sent {
            None => self,
            Some(sent) => Waits {
                reply: Packed::pack(out),
                left: sent.len,
                latest: sent.due + 9000,
            },
        }
    }
}
