use key_record::answer::Reply;
use line_parts::ahead::Ahead;
use line_parts::dial::Dial;
use line_parts::report::Report;

// What a line has shown: its replies, its reports in order, the bytes that it wrote, its open entry and its keys
// ahead.
#[derive(Drop)]
pub struct Side {
    pub replies: Vec<Reply>,
    pub reports: Vec<Report>,
    pub lines: Vec<u8>,
    pub entry: Option<Dial>,
    pub ahead: Ahead,
}
