use kn_base::FrameNo;

/// What a turn of a search came to: the search goes on; a frame was claimed, whose word was this one
/// before; or no frame of the area may be claimed.
#[derive(Clone, Copy)]
pub enum Look {
    Looking,
    Found(FrameNo, u64),
    Full,
}
