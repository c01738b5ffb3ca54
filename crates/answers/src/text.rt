// An answer, as far as it was put together, and text as it is.
ghost use Rattle.std.specs.Prelude.{◌≡◌, length};
ghost use Rattle.answers.specs.Places.{Extended};

// The run that is lent for an answer, and where its next byte goes. No `fmt::Write`: after an `Err` std says nothing of a writer, and what is
// put keeps its promise where no place is left too.
#[derive(Drop)]
pub struct Answer<'a> {
    pub room: &'a mut [u8],
    pub length: usize,
}

impl<'a> Answer<'a> {
    pub fn start(room: &'a mut [u8]) -> Answer<'a>
        ensures empty { result.length ≡ 0 }
        ensures whole { length result.room.now ≡ length room.old }
    {
        Answer { room, length: 0 }
    }

    // One byte; nothing where no place is left.
    pub fn put(&mut self, byte: u8)
        ensures { Extended self.old self.new }
    {
        if self.length < self.room.len() {
            self.room[self.length] = byte;
            self.length += 1;
        }
    }

    // Bytes one after the other, each as it is shown. The place is kept apart from the answer until all are put, so that it is not stored at
    // each byte.
    pub(crate) fn put_each<F: Fn(u8) -> u8>(&mut self, bytes: &[u8], shown: F)
        requires { F.IsAlwaysCallable shown }
        ensures { Extended self.old self.new }
    {
        let mut next = self.length;
        for byte in bytes {
            if next < self.room.len() {
                self.room[next] = shown(*byte);
                next += 1;
            }
        }
        self.length = next;
    }

    pub fn put_text(&mut self, text: &[u8])
        ensures { Extended self.old self.new }
    {
        self.put_each(text, |byte| byte);
    }
}
