// The plain image of the track of a whole track file, at the end of its portions.
#![tactic(auto)]

ghost use Rattle.std.specs.Prelude.{◌≡◌, length};
ghost use Rattle.refusals.specs.RefusedCalls.{answer_of, buffer_after};
ghost use Rattle.track_file.specs.Portions.{read_answer, finish_answer};
ghost use Rattle.file_image.specs.ImageOfFile.{image_given, image_bytes, WholeImage};

use cells::Cells;
use file_reader::Reader;
use refusals::Refusal;
use sectors::Track;
use track_file::FileCells;

// The end of a track file that came in portions: its image, at the front of `image`. `cells` is the buffer that the file was read with.
pub fn image_file(reader: Reader, cells: &[u8], image: &mut [u8]) -> Result<usize, Refusal>
    ensures answer { answer_of result ≡ image_given (finish_answer reader) cells.now (length image.old) }
    ensures image { image.new ≡ buffer_after (image_given (finish_answer reader) cells.now (length image.old)) (image_bytes (finish_answer reader) cells.now) image.old }
    ensures file { WholeImage reader cells.now (answer_of result) image.old image.new }
{
    let read = track_file::finish(reader);
    image_read(read, cells, image)
}

// The image of what a file gave.
#[tactic(auto, unfolding(crate::specs::ImageOfFile::image_given, crate::specs::ImageOfFile::image_bytes, refusals::specs::RefusedCalls::buffer_after))]
fn image_read(
    read: Result<FileCells, Refusal>,
    cells: &[u8],
    image: &mut [u8],
) -> Result<usize, Refusal>
    ensures answer { answer_of result ≡ image_given (read_answer read) cells.now (length image.old) }
    ensures image { image.new ≡ buffer_after (image_given (read_answer read) cells.now (length image.old)) (image_bytes (read_answer read) cells.now) image.old }
{
    let file = read?;
    let track = Track {
        cells: Cells {
            bytes: cells,
            count: file.count,
        },
        track: u32::from(file.track),
        side: u32::from(file.side),
    };
    sector_image::sector_image(track, image)
}
