// A frame number of the day (where pictures are counted, a picture's): a kind of its own, so that it is not mixed with a frame number within a second by accident.
#[derive(Clone, Copy)]
pub struct DayFrame(pub u32);
