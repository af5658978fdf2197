// Reads an image as hexadecimal text from standard input, and prints its instructions.
#![tactic(auto)]

mod lines;

use crate::lines::Lines;
use anyhow::anyhow;
use image::image::Image;
use image::trouble::ImageError;
use listing::line::Line;
use std::alloc::Global;
use std::fmt;
use std::fmt::Write;

// A line for each instruction of an image, and how many bytes it has.
fn disassembled(heap: Global, image: &Image) -> Result<String, fmt::Error> {
    let mut text = String::new(heap);
    let first = Line {
        address: image.base,
        code: image.bytes.as_slice(),
    };
    for line in Lines(first) {
        writeln!(text, "{line}")?;
    }
    let count = image.bytes.len();
    writeln!(text, "{count} bytes")?;
    Ok(text)
}

fn main(rt: HostRuntime) -> anyhow::Result<()> {
    match Image::read(rt.alloc(), &mut rt.stdin()) {
        Ok(image) => {
            let lines = disassembled(rt.alloc(), &image)?;
            rt.print(lines)?;
            Ok(())
        }
        Err(ImageError::NoImage(trouble)) => {
            println!(rt; "{trouble}")?;
            Err(anyhow!("refused"))
        }
        Err(error) => Err(error.into()),
    }
}
