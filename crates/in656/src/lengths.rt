// The lengths that a caller's parts have.
ghost use Rattle.std.specs.Prelude.{◌≡◌};
ghost use Rattle.characters.specs.Marks.{longest};
ghost use Rattle.blocks.specs.Record.{record_length};
ghost use Rattle.blocks.specs.Gatherers.{gatherer_length};
ghost use Rattle.blocks.specs.Desks.{desk_length};
ghost use Rattle.blocks.specs.Masters.{master_length};
ghost use Rattle.in656.specs.Results.Result.{result_size};

use blocks::desks::DESK_LENGTH;
use blocks::gatherers::GATHERER_LENGTH;
use blocks::masters::MASTER_LENGTH;
use blocks::record::RECORD_LENGTH;
use characters::marks::LONGEST;

// How many bytes a result has: sixteen fields of four and two of eight.
const RESULT_SIZE: usize = 80;

#[unsafe(no_mangle)]
pub extern "C" fn in656_result_size() -> usize
    ensures { result ≡ result_size }
{
    RESULT_SIZE
}

#[unsafe(no_mangle)]
pub extern "C" fn in656_longest() -> usize
    ensures { result ≡ longest }
{
    LONGEST
}

#[unsafe(no_mangle)]
pub extern "C" fn in656_record_length() -> usize
    ensures { result ≡ record_length }
{
    RECORD_LENGTH
}

#[unsafe(no_mangle)]
pub extern "C" fn in656_gatherer_length() -> usize
    ensures { result ≡ gatherer_length }
{
    GATHERER_LENGTH
}

#[unsafe(no_mangle)]
pub extern "C" fn in656_desk_length() -> usize
    ensures { result ≡ desk_length }
{
    DESK_LENGTH
}

#[unsafe(no_mangle)]
pub extern "C" fn in656_master_length() -> usize
    ensures { result ≡ master_length }
{
    MASTER_LENGTH
}
