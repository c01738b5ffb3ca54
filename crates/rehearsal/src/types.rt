// A line of the input, and how the reading of it ended.
use requests::LONGEST_LINE;

// What came past the last place was not kept: a line so long is no request.
#[derive(Drop)]
pub struct Line {
    kept: [u8; LONGEST_LINE],
    came: usize,
}

impl Line {
    pub fn new() -> Line {
        Line {
            kept: [0; LONGEST_LINE],
            came: 0,
        }
    }

    pub fn clear(&mut self) {
        self.came = 0;
    }

    pub fn extend(&mut self, part: &[u8]) {
        let end = self.came.saturating_add(part.len());
        match self.kept.get_mut(self.came..end) {
            Some(places) => {
                places.copy_from_slice(part);
                self.came = end;
            }
            None => self.came = LONGEST_LINE + 1,
        }
    }

    pub fn is_empty(&self) -> bool {
        self.came == 0
    }

    pub fn text(&self) -> Option<&[u8]> {
        self.kept.get(..self.came)
    }
}

// Why the reading ended, where the output took each answer.
#[derive(Clone, Copy)]
pub enum End {
    // At a read, and how many bytes it brought: none.
    Input(usize),
    // So many pieces were answered.
    Pieces(u64),
}
