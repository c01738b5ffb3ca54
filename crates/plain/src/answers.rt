// Each answer as a code and what stands beside it.
ghost use Rattle.std.specs.Prelude.{◌≡◌};
ghost use Rattle.plain.specs.Answers.{number_answer, second_answer, picture_answer, distance_answer, written_code, no_record, word_answer, line_answer, packet_answer, heard_with, heard_shown, step_answer, block_answer};

use crate::types::{
    BlockAnswer, DistanceAnswer, LineAnswer, NumberAnswer, PacketAnswer, PictureAnswer,
    PlainContents, PlainHeard, PlainPicture, PlainReader, PlainRecord, SecondAnswer, StepAnswer,
    WordAnswer,
};
use atc::Contents;
use clock::DayFrame;
use hearing::Heard;
use pictures::{Picture, PictureInSecond};
use polarity::Word;
use reader::{Blocked, Stepped};
use record::Record;
use refusals::Refusal;

const DONE: u8 = 0;

const ACCEPTED: u8 = 100;

impl From<Result<DayFrame, Refusal>> for NumberAnswer {
    ghost from_gives = { λ answer shown. shown ≡ number_answer answer };

    fn from(answer: Result<DayFrame, Refusal>) -> NumberAnswer {
        match answer {
            Ok(number) => NumberAnswer {
                code: DONE,
                number: number.0,
            },
            Err(refusal) => NumberAnswer {
                code: u8::from(refusal),
                ..NumberAnswer::default()
            },
        }
    }
}

impl From<Result<PictureInSecond, Refusal>> for SecondAnswer {
    ghost from_gives = { λ answer shown. shown ≡ second_answer answer };

    fn from(answer: Result<PictureInSecond, Refusal>) -> SecondAnswer {
        match answer {
            Ok(number) => SecondAnswer {
                code: DONE,
                number: number.0,
            },
            Err(refusal) => SecondAnswer {
                code: u8::from(refusal),
                ..SecondAnswer::default()
            },
        }
    }
}

impl From<Result<Picture, Refusal>> for PictureAnswer {
    ghost from_gives = { λ answer shown. shown ≡ picture_answer answer };

    fn from(answer: Result<Picture, Refusal>) -> PictureAnswer {
        match answer {
            Ok(p) => PictureAnswer {
                code: DONE,
                picture: PlainPicture::from(p),
            },
            Err(refusal) => PictureAnswer {
                code: u8::from(refusal),
                ..PictureAnswer::default()
            },
        }
    }
}

impl From<Result<i32, Refusal>> for DistanceAnswer {
    ghost from_gives = { λ answer shown. shown ≡ distance_answer answer };

    fn from(answer: Result<i32, Refusal>) -> DistanceAnswer {
        match answer {
            Ok(pictures) => DistanceAnswer {
                code: DONE,
                pictures,
            },
            Err(refusal) => DistanceAnswer {
                code: u8::from(refusal),
                ..DistanceAnswer::default()
            },
        }
    }
}

// No `From`: neither a Result nor a byte is a type of this crate.
pub fn written(answer: Result<(), Refusal>) -> u8
    ensures { result ≡ written_code answer }
{
    match answer {
        Ok(()) => DONE,
        Err(refusal) => u8::from(refusal),
    }
}

impl From<Result<Word, Refusal>> for WordAnswer {
    ghost from_gives = { λ answer shown. shown ≡ word_answer answer };

    #[tactic(auto, unfolding(crate::specs::Answers::no_record))]
    fn from(answer: Result<Word, Refusal>) -> WordAnswer {
        match answer {
            Ok(says) => WordAnswer {
                code: ACCEPTED,
                found: u8::from(says.found),
                record: PlainRecord::from(says.record),
            },
            Err(refusal) => WordAnswer {
                code: u8::from(refusal),
                ..WordAnswer::default()
            },
        }
    }
}

impl From<Result<Record, Refusal>> for LineAnswer {
    ghost from_gives = { λ answer shown. shown ≡ line_answer answer };

    #[tactic(auto, unfolding(crate::specs::Answers::no_record))]
    fn from(answer: Result<Record, Refusal>) -> LineAnswer {
        match answer {
            Ok(held) => LineAnswer {
                code: ACCEPTED,
                record: PlainRecord::from(held),
            },
            Err(refusal) => LineAnswer {
                code: u8::from(refusal),
                ..LineAnswer::default()
            },
        }
    }
}

impl From<Result<Contents, Refusal>> for PacketAnswer {
    ghost from_gives = { λ answer shown. shown ≡ packet_answer answer };

    #[tactic(auto, unfolding(crate::specs::Answers::no_record))]
    fn from(answer: Result<Contents, Refusal>) -> PacketAnswer {
        match answer {
            Ok(contents) => PacketAnswer {
                code: ACCEPTED,
                contents: PlainContents {
                    record: PlainRecord::from(contents.record),
                    payload_type: contents.payload_type,
                    second: contents.second,
                },
            },
            Err(refusal) => PacketAnswer {
                code: u8::from(refusal),
                ..PacketAnswer::default()
            },
        }
    }
}

// No `From<u8>`: not every byte is a code.
#[tactic(auto, unfolding(crate::specs::Answers::no_record))]
pub fn code_alone(code: u8) -> PlainHeard
    ensures { result ≡ heard_with code 0 0 no_record }
{
    PlainHeard {
        code,
        ..PlainHeard::default()
    }
}

impl From<Heard> for PlainHeard {
    ghost from_gives = { λ answer shown. shown ≡ heard_shown answer };

    fn from(answer: Heard) -> PlainHeard {
        match answer {
            Heard::Nothing => code_alone(DONE),
            Heard::Accepted(report) => PlainHeard {
                code: ACCEPTED,
                found: u8::from(report.found),
                way: u8::from(report.way),
                record: PlainRecord::from(report.record),
            },
            Heard::Refused(refusal) => code_alone(u8::from(refusal)),
        }
    }
}

impl From<Stepped> for StepAnswer {
    ghost from_gives = { λ step shown. shown ≡ step_answer step };

    fn from(step: Stepped) -> StepAnswer {
        StepAnswer {
            heard: PlainHeard::from(step.heard),
            reader: PlainReader::from(step.reader),
        }
    }
}

impl From<Blocked> for BlockAnswer {
    ghost from_gives = { λ block shown. shown ≡ block_answer block };

    fn from(block: Blocked) -> BlockAnswer {
        BlockAnswer {
            heard: PlainHeard::from(block.heard),
            reader: PlainReader::from(block.reader),
            taken: block.taken,
        }
    }
}
