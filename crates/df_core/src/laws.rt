// Laws of the definitions, apart from the code.
ghost use Rattle.std.specs.Prelude.{◌≡◌, ℕ, ◌%◌, List, length};
ghost use Rattle.df_core.specs.Df.{df, df_string};
ghost use Rattle.df_core.specs.Examples.{LaysOutStrings};

/// What Block_Cipher_df is said to give has as many bytes as are wanted, and S is whole blocks, whatever the input. A call
/// does nothing.
pub fn keeps_lengths()
    ensures result_len { (keylen want : ℕ) (input : List ℕ) → length (df keylen input want) ≡ want }
    ensures whole_blocks { (want : ℕ) (input : List ℕ) → length (df_string input want) % 16 ≡ 0 }
{}

/// S as it is written out for two inputs. A call does nothing.
pub fn lays_out_strings()
    ensures { LaysOutStrings }
{}
