// Frames for programs in C.
ghost use Rattle.cframes.specs.Frames.{ReadFrame, WriteFrame};

#[unsafe(no_mangle)]
pub extern "C" fn matlink_lent_read_frame(
    frame: &[u8],
    head: &mut [u16; 5],
    cells: &mut [u16; 16],
) -> u8
    ensures { ReadFrame frame.now head.old cells.old head.new cells.new result }
{
    cframes::read(frame, head, cells)
}

#[unsafe(no_mangle)]
pub extern "C" fn matlink_lent_write_frame(
    head: &[u16; 5],
    cells: &[u16; 16],
    buffer: &mut [u8],
    count: &mut usize,
) -> u8
    ensures { WriteFrame head.now cells.now buffer.old buffer.new count.new result }
{
    cframes::write(head, cells, buffer, count)
}
