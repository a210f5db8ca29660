//! The models and partitions of the tables.

/// Minimise 2 x + 3 y over 2 x + y >= 1, an integer x from 0 to 1 and y >= 0.
pub(crate) const ONE: &[u8] =
    b"NAME ONE\nROWS\n N COST\n G LINK\nCOLUMNS\n M1 'MARKER' 'INTORG'\n x COST 2 LINK 2\n M2 'MARKER' 'INTEND'\n y COST 3 LINK 1\nRHS\n RHS LINK 1\nBOUNDS\n UP BND x 1\nENDATA\n";

/// The same with a free y.
pub(crate) const ONE_FREE: &[u8] =
    b"ROWS\n N COST\n G LINK\nCOLUMNS\n M1 'MARKER' 'INTORG'\n x COST 2 LINK 2\n M2 'MARKER' 'INTEND'\n y COST 3 LINK 1\nRHS\n RHS LINK 1\nBOUNDS\n UP BND x 1\n FR BND y\nENDATA\n";

/// 10^30 x + y >= 0 with x at 10^19.
pub(crate) const WIDE: &[u8] =
    b"ROWS\n N COST\n G LINK\nCOLUMNS\n x COST 1 LINK 1e30\n y LINK 1\nBOUNDS\n FX BND x 1e19\nENDATA\n";

/// Minimise -y over x >= 1 and x <= 1, with y >= 0 in no row.
pub(crate) const RAY: &[u8] =
    b"ROWS\n N COST\n G A\n L B\nCOLUMNS\n x A 1 B 1\n y COST -1\nRHS\n RHS A 1 B 1\nBOUNDS\n UP BND x 5\nENDATA\n";

/// Minimise x over x + y1 >= 1 and x + y2 >= 1, with both y at 0.
pub(crate) const GATE: &[u8] =
    b"ROWS\n N COST\n G R1\n G R2\nCOLUMNS\n M1 'MARKER' 'INTORG'\n x COST 1 R1 1\n x R2 1\n M2 'MARKER' 'INTEND'\n y1 R1 1\n y2 R2 1\nRHS\n RHS R1 1 R2 1\nBOUNDS\n UP BND y1 0\n UP BND y2 0\nENDATA\n";

/// Minimise x + 5 y over 2 x + 3 y = 1, with a free y.
pub(crate) const EQUAL: &[u8] =
    b"ROWS\n N COST\n E LINK\nCOLUMNS\n M1 'MARKER' 'INTORG'\n x COST 1 LINK 2\n M2 'MARKER' 'INTEND'\n y COST 5 LINK 3\nRHS\n RHS LINK 1\nBOUNDS\n FR BND y\nENDATA\n";

/// Minimise x + 2 y without rows, with a free y and a free z.
pub(crate) const BARE: &[u8] =
    b"ROWS\n N COST\nCOLUMNS\n M1 'MARKER' 'INTORG'\n x COST 1\n M2 'MARKER' 'INTEND'\n y COST 2\n z COST 0\nBOUNDS\n FR BND y\n FR BND z\nENDATA\n";

/// Minimise x + 3 y with y at 5/2.
pub(crate) const FIXED: &[u8] =
    b"ROWS\n N COST\nCOLUMNS\n M1 'MARKER' 'INTORG'\n x COST 1\n M2 'MARKER' 'INTEND'\n y COST 3\nBOUNDS\n FX BND y 2.5\nENDATA\n";

/// Minimise y + 2 z over y + z >= 3: there is no column for a master.
pub(crate) const ALONE: &[u8] =
    b"ROWS\n N COST\n G SUM\nCOLUMNS\n y COST 1 SUM 1\n z COST 2 SUM 1\nRHS\n RHS SUM 3\nENDATA\n";

/// Minimise 2 y + z over y + z >= x and y - 2 z <= 4, with z at most 1 and x from 0 to 10, no integer.
pub(crate) const LEVEL: &[u8] =
    b"ROWS\n N COST\n G NEED\n L CAP\nCOLUMNS\n x NEED -1\n y COST 2 NEED 1\n y CAP 1\n z COST 1 NEED 1\n z CAP -2\nRHS\n RHS CAP 4\nBOUNDS\n UP BND x 10\n UP BND z 1\nENDATA\n";

/// 2 x + y >= 2, with y at 0.
pub(crate) const DOUBLE: &[u8] =
    b"ROWS\n N COST\n G LINK\nCOLUMNS\n M1 'MARKER' 'INTORG'\n x COST 1 LINK 2\n M2 'MARKER' 'INTEND'\n y LINK 1\nRHS\n RHS LINK 2\nBOUNDS\n FX BND y 0\nENDATA\n";

/// Maximise 2 x + 3 y with y at most 5/2.
pub(crate) const RISES: &[u8] =
    b"OBJSENSE MAX\nROWS\n N COST\nCOLUMNS\n M1 'MARKER' 'INTORG'\n x COST 2\n M2 'MARKER' 'INTEND'\n y COST 3\nBOUNDS\n MI BND y\n UP BND y 2.5\nENDATA\n";

/// A free y from 100000001 to 150000001 times 10^30.
pub(crate) const FAR: &[u8] =
    b"ROWS\n N COST\n G A\n L B\nCOLUMNS\n M1 'MARKER' 'INTORG'\n x COST 1\n M2 'MARKER' 'INTEND'\n y A 1 B 1\nRHS\n RHS A 100000001e30 B 150000001e30\nBOUNDS\n FR BND y\nENDATA\n";

/// Minimise x + 3 y over 85070592 10^30 x + y >= 1, with a free y.
pub(crate) const STEEP: &[u8] =
    b"ROWS\n N COST\n G LINK\nCOLUMNS\n M1 'MARKER' 'INTORG'\n x COST 1 LINK 85070592e30\n M2 'MARKER' 'INTEND'\n y COST 3 LINK 1\nRHS\n RHS LINK 1\nBOUNDS\n FR BND y\nENDATA\n";

/// y at 1/2 without a cost.
pub(crate) const HALF: &[u8] =
    b"ROWS\n N COST\nCOLUMNS\n M1 'MARKER' 'INTORG'\n x COST 1\n M2 'MARKER' 'INTEND'\n y COST 0\nBOUNDS\n FX BND y 0.5\nENDATA\n";

/// y at 1/5 without a cost.
pub(crate) const FIFTH: &[u8] =
    b"ROWS\n N COST\nCOLUMNS\n M1 'MARKER' 'INTORG'\n x COST 1\n M2 'MARKER' 'INTEND'\n y COST 0\nBOUNDS\n FX BND y 0.2\nENDATA\n";

/// Minimise 2 x - 3 z over 2 x + 2 z <= 5 and integers from -9 to 9.
pub(crate) const PAIR: &[u8] =
    b"ROWS\n N COST\n L R\nCOLUMNS\n M1 'MARKER' 'INTORG'\n x COST 2 R 2\n z COST -3 R 2\n M2 'MARKER' 'INTEND'\nRHS\n RHS R 5\nBOUNDS\n LO BND x -9\n UP BND x 9\n LO BND z -9\n UP BND z 9\nENDATA\n";

/// y at 1/2 without a cost, and x + z <= 100000001 10^30 with a free z.
pub(crate) const TALL: &[u8] =
    b"ROWS\n N COST\n L R\nCOLUMNS\n M1 'MARKER' 'INTORG'\n x COST 1 R 1\n M2 'MARKER' 'INTEND'\n y COST 0\n z R 1\nRHS\n RHS R 100000001e30\nBOUNDS\n FX BND y 0.5\n FR BND z\nENDATA\n";

/// Minimise x - y over 2 y - 4 z <= 0.
pub(crate) const RATIO: &[u8] =
    b"ROWS\n N COST\n L R\nCOLUMNS\n M1 'MARKER' 'INTORG'\n x COST 1\n M2 'MARKER' 'INTEND'\n y COST -1 R 2\n z R -4\nENDATA\n";

/// Minimise x - w over w <= z <= y, and 150000001 w <= 100000001 (y + z) with each number taken 10^30 times.
pub(crate) const CHAIN: &[u8] =
    b"ROWS\n N COST\n L R\n L A\n L B\nCOLUMNS\n M1 'MARKER' 'INTORG'\n x COST 1\n M2 'MARKER' 'INTEND'\n y R -100000001e30 A -1\n z R -100000001e30 A 1\n z B -1\n w COST -1 R 150000001e30\n w B 1\nBOUNDS\n FR BND y\n FR BND z\n FR BND w\nENDATA\n";

/// Minimise -p y - q z over p y <= 1 and q z <= 1, with p and q the two odd numbers next to 10^20.
pub(crate) const PRIMES: &[u8] =
    b"ROWS\n N COST\n L A\n L B\nCOLUMNS\n M1 'MARKER' 'INTORG'\n x COST 1\n M2 'MARKER' 'INTEND'\n y COST -99999999999999999999 A 99999999999999999999\n z COST -100000000000000000001 B 100000000000000000001\nRHS\n RHS A 1 B 1\nBOUNDS\n FR BND y\n FR BND z\nENDATA\n";

/// Minimise 2 x - 3 z over x + z <= 5 and integers from -9 to 9, with w in block 1.
pub(crate) const TWO: &[u8] =
    b"ROWS\n N COST\n L R\nCOLUMNS\n M1 'MARKER' 'INTORG'\n x COST 2 R 1\n z COST -3 R 1\n M2 'MARKER' 'INTEND'\n w COST 1\nRHS\n RHS R 5\nBOUNDS\n LO BND x -9\n UP BND x 9\n LO BND z -9\n UP BND z 9\nENDATA\n";

/// Minimise x - 2 c over 2 x + c = 1, with c from 0 to 3/2, no integer, an integer x from -5 to 5 and w in block 1.
pub(crate) const MIXED: &[u8] =
    b"ROWS\n N COST\n E R\nCOLUMNS\n M1 'MARKER' 'INTORG'\n x COST 1 R 2\n M2 'MARKER' 'INTEND'\n c COST -2 R 1\n w COST 1\nRHS\n RHS R 1\nBOUNDS\n LO BND x -5\n UP BND x 5\n UP BND c 1.5\nENDATA\n";

/// Maximise c, from 0 to 1/2 and no integer, with an integer x in x <= 100000001 10^30.
pub(crate) const PART: &[u8] =
    b"OBJSENSE MAX\nROWS\n N COST\n L R\nCOLUMNS\n M1 'MARKER' 'INTORG'\n x COST 0 R 1\n M2 'MARKER' 'INTEND'\n c COST 1\nRHS\n RHS R 100000001e30\nBOUNDS\n UP BND x 5\n UP BND c 0.5\nENDATA\n";

/// Maximise x + z + w of three integers.
pub(crate) const THREE: &[u8] =
    b"OBJSENSE MAX\nROWS\n N COST\nCOLUMNS\n M1 'MARKER' 'INTORG'\n x COST 1\n z COST 1\n w COST 1\n M2 'MARKER' 'INTEND'\nENDATA\n";

/// The same over w <= -50000001 10^30.
pub(crate) const THREE_LOW: &[u8] =
    b"OBJSENSE MAX\nROWS\n N COST\n L R\nCOLUMNS\n M1 'MARKER' 'INTORG'\n x COST 1\n z COST 1\n w COST 1 R 1\n M2 'MARKER' 'INTEND'\nRHS\n RHS R -50000001e30\nENDATA\n";

/// Minimise x + 160000001 10^30 of one integer.
pub(crate) const RAISED: &[u8] =
    b"ROWS\n N COST\nCOLUMNS\n M1 'MARKER' 'INTORG'\n x COST 1\n M2 'MARKER' 'INTEND'\nRHS\n RHS COST -160000001e30\nENDATA\n";

/// Minimise -p x - q z of two integers, with those p and q and w in block 1.
pub(crate) const STEPS: &[u8] =
    b"ROWS\n N COST\nCOLUMNS\n M1 'MARKER' 'INTORG'\n x COST -99999999999999999999\n z COST -100000000000000000001\n M2 'MARKER' 'INTEND'\n w COST 0\nENDATA\n";

/// Nothing.
pub(crate) const NOTHING: &[u8] = b"ROWS\n N COST\nCOLUMNS\nENDATA\n";

/// x in the master, the other columns in block 1.
pub(crate) const X_APART: &[u8] = b"cpxBendersPartition 1\nx 0\n";

/// y1 and y2 in blocks of their own.
pub(crate) const TWO_BLOCKS: &[u8] = b"cpxBendersPartition 0\ny1 1\ny2 2\n";

/// y and z in blocks of their own.
pub(crate) const Y_AND_Z: &[u8] = b"cpxBendersPartition 0\ny 1\nz 2\n";

/// w in block 1, the other columns in the master.
pub(crate) const W_APART: &[u8] = b"cpxBendersPartition 0\nw 1\n";

/// All columns in block 1.
pub(crate) const NO_MASTER: &[u8] = b"cpxBendersPartition 1\n";

/// All columns in the master.
pub(crate) const NO_BLOCK: &[u8] = b"cpxBendersPartition 0\n";
