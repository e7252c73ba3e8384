// Writes a tree token by token.
use std::alloc::{AllocError, Global};

fn count(bytes: &[u8]) -> u32 {
    u32::try_from(bytes.len()).unwrap_or(u32::MAX)
}

#[derive(Drop)]
pub struct Writer {
    structure: Vec<u8>,
    strings: Vec<u8>,
}

impl Writer {
    pub fn new(alloc: Global) -> Writer {
        Writer {
            structure: Vec::new(alloc),
            strings: Vec::new(alloc),
        }
    }

    pub fn cell(&mut self, cell: u32) -> Result<(), AllocError> {
        self.structure.extend_from_slice(&cell.to_be_bytes())
    }

    // Bytes, and zeros up to the next cell.
    fn padded(&mut self, bytes: &[u8]) -> Result<(), AllocError> {
        self.structure.extend_from_slice(bytes)?;
        let zeros = [0u8; 4];
        self.structure
            .extend_from_slice(&zeros[..(4 - bytes.len() % 4) % 4])
    }

    // The beginning of a node, with the zero of its name.
    pub fn begin(&mut self, name: &[u8]) -> Result<(), AllocError> {
        self.cell(1)?;
        self.structure.extend_from_slice(name)?;
        let zeros = [0u8; 4];
        self.structure
            .extend_from_slice(&zeros[..4 - name.len() % 4])
    }

    pub fn prop(&mut self, name: &[u8], value: &[u8]) -> Result<(), AllocError> {
        self.cell(3)?;
        self.cell(count(value))?;
        let place = count(&self.strings);
        self.cell(place)?;
        self.strings.extend_from_slice(name)?;
        self.strings.push(0)?;
        self.padded(value)
    }

    pub fn end(&mut self) -> Result<(), AllocError> {
        self.cell(2)
    }

    // The whole tree: header, no memory reservation, structure block, strings.
    pub fn tree(&self, alloc: Global) -> Result<Vec<u8>, AllocError> {
        let structure = count(&self.structure);
        let strings = count(&self.strings);
        let place = structure.wrapping_add(56);
        let total = place.wrapping_add(strings);
        let mut tree = Vec::new(alloc);
        for cell in [
            0xd00d_feed,
            total,
            56,
            place,
            40,
            17,
            16,
            0,
            strings,
            structure,
            0,
            0,
            0,
            0,
        ] {
            tree.extend_from_slice(&cell.to_be_bytes())?;
        }
        tree.extend_from_slice(&self.structure)?;
        tree.extend_from_slice(&self.strings)?;
        Ok(tree)
    }
}
