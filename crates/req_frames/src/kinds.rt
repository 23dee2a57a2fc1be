//! The kinds of frames, and the byte of each.

ghost use Rattle.std.specs.Prelude.{◌≡◌, false, IfSome, IfNone};
ghost use Rattle.frame_fields.specs.FrameLayouts.{is_in};
ghost use Rattle.req_frames.specs.Requests.{requests, request_byte, request_kind};
ghost use Rattle.req_frames.specs.Replies.{replies, reply_byte, reply_kind};

use far_asks::frames::{Reply, Request};

/// The kinds of requests.
#[derive(Clone, Copy)]
pub enum RequestKind {
    Hello = 1,
    Make = 2,
    DropTree = 3,
    List = 4,
    Top = 5,
    Renew = 6,
    Lease = 7,
    Append = 8,
    Read = 9,
    Length = 10,
    Push = 11,
    Pop = 12,
    Front = 13,
    Count = 14,
    Put = 15,
    Get = 16,
    Remove = 17,
    Park = 18,
    Load = 19,
    Map = 20,
    ReadSlice = 21,
    GetSlice = 22,
    PutSlice = 23,
    Report = 24,
    Share = 25,
    Bye = 26,
}

impl RequestKind {
    /// The kind of a byte, where there is one.
    pub fn from_byte(byte: u8) -> Option<RequestKind>
        ensures is { IfSome result (λ kind. request_byte kind ≡ byte) }
        ensures none { IfNone result (is_in requests byte ≡ false) }
    {
        match byte {
            1 => Some(RequestKind::Hello),
            2 => Some(RequestKind::Make),
            3 => Some(RequestKind::DropTree),
            4 => Some(RequestKind::List),
            5 => Some(RequestKind::Top),
            6 => Some(RequestKind::Renew),
            7 => Some(RequestKind::Lease),
            8 => Some(RequestKind::Append),
            9 => Some(RequestKind::Read),
            10 => Some(RequestKind::Length),
            11 => Some(RequestKind::Push),
            12 => Some(RequestKind::Pop),
            13 => Some(RequestKind::Front),
            14 => Some(RequestKind::Count),
            15 => Some(RequestKind::Put),
            16 => Some(RequestKind::Get),
            17 => Some(RequestKind::Remove),
            18 => Some(RequestKind::Park),
            19 => Some(RequestKind::Load),
            20 => Some(RequestKind::Map),
            21 => Some(RequestKind::ReadSlice),
            22 => Some(RequestKind::GetSlice),
            23 => Some(RequestKind::PutSlice),
            24 => Some(RequestKind::Report),
            25 => Some(RequestKind::Share),
            26 => Some(RequestKind::Bye),
            _ => None,
        }
    }

    /// The byte of a kind.
    pub fn byte(self) -> u8
        ensures is { result ≡ request_byte self }
        // It is the byte of no other kind, so that both ways are inverse.
        ensures one { (other : RequestKind) → request_byte other ≡ result → other ≡ self }
    {
        self as u8
    }

    /// The kind of a request.
    pub fn of(request: &Request) -> RequestKind
        ensures { result ≡ request_kind request.now }
    {
        match request {
            Request::Hello { .. } => RequestKind::Hello,
            Request::Make { .. } => RequestKind::Make,
            Request::DropTree { .. } => RequestKind::DropTree,
            Request::List { .. } => RequestKind::List,
            Request::Top { .. } => RequestKind::Top,
            Request::Renew { .. } => RequestKind::Renew,
            Request::Lease { .. } => RequestKind::Lease,
            Request::Append { .. } => RequestKind::Append,
            Request::Read { .. } => RequestKind::Read,
            Request::Length { .. } => RequestKind::Length,
            Request::Push { .. } => RequestKind::Push,
            Request::Pop { .. } => RequestKind::Pop,
            Request::Front { .. } => RequestKind::Front,
            Request::Count { .. } => RequestKind::Count,
            Request::Put { .. } => RequestKind::Put,
            Request::Get { .. } => RequestKind::Get,
            Request::Remove { .. } => RequestKind::Remove,
            Request::Park { .. } => RequestKind::Park,
            Request::Load { .. } => RequestKind::Load,
            Request::Map { .. } => RequestKind::Map,
            Request::ReadSlice { .. } => RequestKind::ReadSlice,
            Request::GetSlice { .. } => RequestKind::GetSlice,
            Request::PutSlice { .. } => RequestKind::PutSlice,
            Request::Report { .. } => RequestKind::Report,
            Request::Share => RequestKind::Share,
            Request::Bye => RequestKind::Bye,
        }
    }
}

/// The kinds of replies.
#[derive(Clone, Copy)]
pub enum ReplyKind {
    Done = 64,
    Number = 65,
    Bytes = 66,
    Item = 67,
    Nothing = 68,
    Names = 69,
    Places = 70,
    Share = 71,
    TooLong = 80,
    Absent = 81,
    WrongKind = 82,
    Exists = 83,
    Exhausted = 84,
    StoreFault = 85,
    Damaged = 86,
    Stale = 87,
    AbsentUser = 88,
    TooMuch = 89,
    NoMemory = 90,
    Full = 91,
}

impl ReplyKind {
    /// The kind of a byte, where there is one.
    pub fn from_byte(byte: u8) -> Option<ReplyKind>
        ensures is { IfSome result (λ kind. reply_byte kind ≡ byte) }
        ensures none { IfNone result (is_in replies byte ≡ false) }
    {
        match byte {
            64 => Some(ReplyKind::Done),
            65 => Some(ReplyKind::Number),
            66 => Some(ReplyKind::Bytes),
            67 => Some(ReplyKind::Item),
            68 => Some(ReplyKind::Nothing),
            69 => Some(ReplyKind::Names),
            70 => Some(ReplyKind::Places),
            71 => Some(ReplyKind::Share),
            80 => Some(ReplyKind::TooLong),
            81 => Some(ReplyKind::Absent),
            82 => Some(ReplyKind::WrongKind),
            83 => Some(ReplyKind::Exists),
            84 => Some(ReplyKind::Exhausted),
            85 => Some(ReplyKind::StoreFault),
            86 => Some(ReplyKind::Damaged),
            87 => Some(ReplyKind::Stale),
            88 => Some(ReplyKind::AbsentUser),
            89 => Some(ReplyKind::TooMuch),
            90 => Some(ReplyKind::NoMemory),
            91 => Some(ReplyKind::Full),
            _ => None,
        }
    }

    /// The byte of a kind.
    pub fn byte(self) -> u8
        ensures is { result ≡ reply_byte self }
        // It is the byte of no other kind, so that both ways are inverse.
        ensures one { (other : ReplyKind) → reply_byte other ≡ result → other ≡ self }
    {
        self as u8
    }

    /// The kind of a reply.
    pub fn of(reply: &Reply) -> ReplyKind
        ensures { result ≡ reply_kind reply.now }
    {
        match reply {
            Reply::Done => ReplyKind::Done,
            Reply::Number(_) => ReplyKind::Number,
            Reply::Bytes(_) => ReplyKind::Bytes,
            Reply::Item(_) => ReplyKind::Item,
            Reply::Nothing => ReplyKind::Nothing,
            Reply::Names(_) => ReplyKind::Names,
            Reply::Places(_) => ReplyKind::Places,
            Reply::Share { .. } => ReplyKind::Share,
            Reply::TooLong { .. } => ReplyKind::TooLong,
            Reply::Absent => ReplyKind::Absent,
            Reply::WrongKind => ReplyKind::WrongKind,
            Reply::Exists => ReplyKind::Exists,
            Reply::Exhausted { .. } => ReplyKind::Exhausted,
            Reply::StoreFault => ReplyKind::StoreFault,
            Reply::Damaged { .. } => ReplyKind::Damaged,
            Reply::Stale { .. } => ReplyKind::Stale,
            Reply::AbsentUser { .. } => ReplyKind::AbsentUser,
            Reply::TooMuch { .. } => ReplyKind::TooMuch,
            Reply::NoMemory => ReplyKind::NoMemory,
            Reply::Full { .. } => ReplyKind::Full,
        }
    }
}
