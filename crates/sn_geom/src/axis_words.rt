//! The axis words of a line.
ghost use Rattle.sn_geom.specs.AxisWords.{AxesAreLengths};

use crate::block::Block;

impl Block {
    /// Hands on that the values of X, Y and Z of every block are lengths.
    pub fn axes(&self)
        ensures { AxesAreLengths self.now.words }
    {
        self.rule()
    }
}
