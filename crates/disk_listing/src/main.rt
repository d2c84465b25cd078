// Prints the page of a disk, from the track files that are its arguments.
//
//     disk_listing FILE..
//
// Each file is read as track_listing reads its input, and its track goes on the page. One that is refused, or cannot be read to its end, is
// named on standard error and left out; after the page the last line there says how many files are left out, if there are any. Where the page
// itself is refused, nothing goes to standard output, and that last line is the one of the refusal.
#![tactic(auto)]

ghost use Rattle.std.specs.Prelude.{◌≡◌, ◌+◌, ◌<◌, ◌≤◌, take};
ghost use Rattle.disk_listing.specs.DiskOfFiles.{file_seen, printed_seen, TakenFile, AllFiles, FilesTaken, PagePrinted};
ghost use Rattle.disk_listing.specs.PrivateContracts.{with_file, Small, Gathered};

use refusals::Refusal;
use std::env::{Env, FillError};
use std::fs::Files;
use std::io::Read;
use std::{fs, io, str};
use track_input::Input;

// The length of the command line in words, of which the first is the program's name. A word for which there is no room is too long, or empty. Each program
// that asks has a function of its own: a public one would need a clause, and no contract knows what words there are.
fn word_count<E: Env>(env: &E) -> usize {
    for i in 0..usize::MAX {
        if let Err(FillError::NotPresent) = env.arg(i, &mut []) {
            return i;
        }
    }
    usize::MAX
}

// Room for one track more than a page can have. With so many the page is refused, and the files after them are not read.
const TRACK_NUMBERS: usize = 507;

const FINDING_NUMBERS: usize = 609_076;

// Room for the lines of any track: none is longer than 80 bytes, and a track has at most 901 findings.
const PART_ROOM: usize = 72_080;

// What a file brought: a track with so many findings, a refusal, or nothing, where it cannot be read to its end.
// Three ways, so neither Result nor Option.
#[derive(Clone, Copy, Debug)]
enum File {
    Track(usize),
    Refused(Refusal),
    Unreadable,
}

// How many numbers of the two lists are filled, how many files are left out, and how many of these cannot be read.
#[derive(Clone, Copy, Debug)]
struct Disk {
    tracks: usize,
    findings: usize,
    left: usize,
    unreadable: usize,
}

// How the printing ended: the page is whole, with so many bytes, or refused, or standard output did not take it.
#[derive(Clone, Copy, Debug)]
enum Printed {
    Whole(usize),
    Refused(Refusal),
    NotTaken,
}

// Opens the file of this name for reading. std opens none whose name is not UTF-8.
fn open<F: Files>(files: &F, name: &[u8]) -> io::Result<F::File> {
    match str::from_utf8(name) {
        Ok(text) => fs::open(files, text),
        Err(_) => Err(io::Error::from(io::ErrorKind::InvalidFilename)),
    }
}

// Reads the file of this name, and adds its track and findings to the lists, from these indices on.
fn take_file<F: Files>(
    files: &F,
    name: &[u8],
    portion: &mut [u8],
    cells: &mut [u8; track_file::ROOM],
    tracks: &mut [u32],
    at: usize,
    findings: &mut [u32],
    from: usize,
) -> File
    ensures { TakenFile (file_seen result) tracks.old tracks.new at findings.old findings.new from }
{
    match open(files, name) {
        Ok(mut input) => take_input(&mut input, portion, cells, tracks, at, findings, from),
        Err(_) => File::Unreadable,
    }
}

// The same of a file that is open.
fn take_input<R: Read>(
    input: &mut R,
    portion: &mut [u8],
    cells: &mut [u8; track_file::ROOM],
    tracks: &mut [u32],
    at: usize,
    findings: &mut [u32],
    from: usize,
) -> File
    ensures { TakenFile (file_seen result) tracks.old tracks.new at findings.old findings.new from }
{
    let start = track_file::start(cells);
    match track_input::read_all(input, start, portion, cells) {
        Input::Ended(reader) => {
            match disk_files::add_file(reader, cells, tracks, at, findings, from) {
                Ok(count) => File::Track(count),
                Err(refusal) => File::Refused(refusal),
            }
        }
        Input::Open(_) | Input::Failed => File::Unreadable,
    }
}

// The counts after a file.
#[tactic(auto, unfolding(crate::specs::PrivateContracts::with_file, crate::specs::PrivateContracts::Small))]
fn with_file(disk: Disk, file: File) -> Disk
    requires { Small disk (file_seen file) }
    ensures { result ≡ with_file disk (file_seen file) }
{
    match file {
        File::Track(count) => Disk {
            tracks: disk.tracks + 3,
            findings: disk.findings + 4 * count,
            ..disk
        },
        File::Refused(_) => Disk {
            left: disk.left + 1,
            ..disk
        },
        File::Unreadable => Disk {
            left: disk.left + 1,
            unreadable: disk.unreadable + 1,
            ..disk
        },
    }
}

// Names a file that is left out on standard error.
fn tell_file<P: Print>(to: &P, name: &[u8], file: File) {
    match file {
        File::Track(_) => {}
        File::Refused(refusal) => {
            let _ = to.write_all(name);
            let _ = to.write_all(b": ");
            tell_refusal(to, refusal);
        }
        File::Unreadable => {
            let _ = to.write_all(name);
            let _ = to.write_all(b": cannot be read to its end\n");
        }
    }
}

fn tell_refusal<P: Print>(to: &P, refusal: Refusal) {
    let _ = to.write_all(b"refused ");
    let _ = to.print(refusal.number());
    let _ = to.write_all(b"\n");
}

// The next file, which is the program's argument i.
fn next_file<S: Env + Files, P: Print>(
    system: &S,
    messages: &P,
    i: usize,
    disk: Disk,
    name: &mut [u8; 4096],
    portion: &mut [u8; 65536],
    cells: &mut [u8; track_file::ROOM],
    tracks: &mut [u32; TRACK_NUMBERS],
    findings: &mut [u32; FINDING_NUMBERS],
) -> Disk
    requires gathered { Gathered disk tracks.old findings.old i }
    requires room { disk.tracks ≤ 504 }
    requires more { i < 0xFFFF_FFFF_FFFF_FFFF }
    ensures { Gathered result tracks.new findings.new (i + 1) }
{
    let length = system_calls::word(system, i, name);
    let file = take_file(
        system,
        &name[..length],
        portion,
        cells,
        tracks,
        disk.tracks,
        findings,
        disk.findings,
    );
    tell_file(messages, &name[..length], file);
    with_file(disk, file)
}

// All files that are the program's arguments, or so many that the page is refused.
fn gather<S: Env + Files, P: Print>(
    system: &S,
    messages: &P,
    name: &mut [u8; 4096],
    portion: &mut [u8; 65536],
    cells: &mut [u8; track_file::ROOM],
    tracks: &mut [u32; TRACK_NUMBERS],
    findings: &mut [u32; FINDING_NUMBERS],
) -> Disk
    ensures few { (result.tracks ≤ 507) × (result.findings ≤ 609076) }
    ensures files { FilesTaken (take result.tracks tracks.new) (take result.findings findings.new) result.left result.unreadable }
{
    gather_words(
        system,
        messages,
        word_count(system),
        name,
        portion,
        cells,
        tracks,
        findings,
    )
}

// The same where there are so many words, of which the first is the program's name. Its promise is of this very number, so that no file is passed over.
fn gather_words<S: Env + Files, P: Print>(
    system: &S,
    messages: &P,
    words: usize,
    name: &mut [u8; 4096],
    portion: &mut [u8; 65536],
    cells: &mut [u8; track_file::ROOM],
    tracks: &mut [u32; TRACK_NUMBERS],
    findings: &mut [u32; FINDING_NUMBERS],
) -> Disk
    ensures few { (result.tracks ≤ 507) × (result.findings ≤ 609076) }
    ensures files { AllFiles words (take result.tracks tracks.new) (take result.findings findings.new) result.left result.unreadable }
{
    let mut disk = Disk {
        tracks: 0,
        findings: 0,
        left: 0,
        unreadable: 0,
    };
    for i in 1..words {
        if disk.tracks > 504 {
            return disk;
        }
        disk = next_file(
            system, messages, i, disk, name, portion, cells, tracks, findings,
        );
    }
    disk
}

// Prints the page part by part, since there is no room for all of it. The first part is refused where the page is.
fn print_page<P: Print>(
    to: &P,
    tracks: &[u32],
    findings: &[u32],
    out: &mut [u8; PART_ROOM],
) -> Printed
    ensures { PagePrinted tracks.now findings.now (printed_seen result) }
{
    let mut total: usize = 0;
    for part in 0..169 {
        match disk_page::page_part(tracks, findings, part, out) {
            Err(refusal) => return Printed::Refused(refusal),
            Ok(length) => {
                if out.len() < length || to.write_all(&out[..length]).is_err() {
                    return Printed::NotTaken;
                }
                total += length;
            }
        }
    }
    Printed::Whole(total)
}

// The last line on standard error, where there is something to tell.
fn tell_disk<P: Print>(to: &P, disk: Disk, printed: Printed) {
    match printed {
        Printed::Refused(refusal) => tell_refusal(to, refusal),
        Printed::NotTaken => {
            let _ = to.write_all(b"disk_listing: standard output did not take the page\n");
        }
        Printed::Whole(_) => {
            if disk.left > 0 {
                let _ = to.write_all(b"files left out: ");
                let _ = to.print(disk.left);
                let _ = to.write_all(b", of these unreadable: ");
                let _ = to.print(disk.unreadable);
                let _ = to.write_all(b"\n");
            }
        }
    }
}

// Gathers the tracks and prints their page. The two large arrays are only lent here: in the function that makes them, what stands in them is
// computed in a proof.
fn list_disk(rt: HostRuntime, findings: &mut [u32; FINDING_NUMBERS], out: &mut [u8; PART_ROOM]) {
    let mut tracks = [0u32; TRACK_NUMBERS];
    let mut cells = [0u8; track_file::ROOM];
    let mut name = system_calls::buffer();
    let mut portion = system_calls::large_buffer();
    let messages = rt.stderr();
    let disk = gather(
        &rt,
        &messages,
        &mut name,
        &mut portion,
        &mut cells,
        &mut tracks,
        findings,
    );
    let printed = print_page(
        &rt.stdout(),
        &tracks[..disk.tracks],
        &findings[..disk.findings],
        out,
    );
    tell_disk(&messages, disk, printed);
}

fn main(rt: HostRuntime) {
    if word_count(&rt) < 2 {
        let _ = rt.stderr().write_all(b"usage: disk_listing FILE..\n");
        return;
    }
    let mut findings = [0u32; FINDING_NUMBERS];
    let mut out = [0u8; PART_ROOM];
    list_disk(rt, &mut findings, &mut out);
}
