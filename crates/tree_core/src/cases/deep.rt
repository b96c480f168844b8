// A path of eight nodes. Each call in words, and behind it the code, the two numbers and the bytes of its reply, all computed by an
// independent implementation.
pub(crate) const PLAN: &str = "version = 1
opening = \"all\"
[[source]]
samples = \"s0\"
num = 8
den = 1
rct = 4
apt = 257
startup = 1024
conditioner = \"hmac-sha-256\"
[[node]]
kind = \"rbg2\"
drbg = \"hmac-sha-512\"
interval = 3
source = 0
[[node]]
kind = \"child\"
drbg = \"ctr-aes-256\"
interval = 2
parent = 0
[[node]]
kind = \"child\"
drbg = \"hmac-sha-256\"
interval = 1
parent = 1
[[node]]
kind = \"child\"
drbg = \"hmac-sha-384\"
interval = 5
parent = 2
[[node]]
kind = \"child\"
drbg = \"ctr-aes-256\"
interval = 2
parent = 3
[[node]]
kind = \"child\"
drbg = \"ctr-aes-192\"
interval = 3
parent = 4
[[node]]
kind = \"child\"
drbg = \"ctr-aes-128\"
interval = 1
parent = 5
[[node]]
kind = \"child\"
drbg = \"ctr-aes-128\"
interval = 4
parent = 6
";

pub(crate) const CALLS: &str =
    "generate 7 1 strength 192 string 775bf2c46d29cfafa02e248b45126fb85f226b4dbf0c7c045fb189e6bbe21ac9b7
5 192 128 -
generate 3 1
0 0 0 cc
generate 4 33 strength 192 string 3e28deea02188acc37fdd7611d50ff04
0 0 0 2fc2cc55dea4e11e536c90b0373ee0fa3b6f50c9033db4da175410cd81aee24dcd
generate 5 1 string 2334d14b7113e43eb7b2836e7314bc24
0 0 0 3e
status 6
0 0 0 01000000000000000200000000000000010000000000000001
generate 0 17
0 0 0 dbd709c37728404a25c1b6220845bf29a6
generate 3 15 string 0d
0 0 0 c6b93e2d2edc1598c6678a3ca8b70d
status 7
0 0 0 01000000000000000100000000000000010000000000000000
generate 3 64 pr strength 128
0 0 0 a257555046a3cf4131009e072073716202cff7593742ab76a891992fe7a0beb75000d3694b0425ce309a780d6f3991d50f76af0697f6a7c5d811dfc859be900c
generate 2 17 pr
0 0 0 6b5573bcadabe58c00b0604b3bcecc3018
generate 8 33 string c7
1 8 8 -
status 5
0 0 0 01000000000000000300000000000000010000000000000002
reseed 1 pr string 2a0e5a21fa3755ccb4366a426abba190
0 0 0 -
status 8
1 8 8 -
generate 3 0
0 0 0 -
start 0
0 0 0 -
generate 3 64
0 0 0 8194db2426ea53ae7a662b25453a272bde5ecd157e30852c2b282f32f1548d9fbb41674c1aae3eb6370de1da7a9dc8bc38565fbe90ba88bd63d2936f434d59ee
status 1
0 0 0 01000000000000000100000000000000040000000000000003
status 4
0 0 0 01000000000000000300000000000000010000000000000002
generate 3 15
0 0 0 45f2c86faec1a24f085f1ab678863d
start 0
0 0 0 -
generate 7 32 pr
0 0 0 559c3a71db3b162b41adc64ab5799dda30d8ce65d18e227bf7a583038ef673ab
status 2
0 0 0 01000000000000000200000000000000040000000000000004
start 0
0 0 0 -
generate 4 64 strength 257 string 5b
5 257 256 -
generate 4 17 strength 128
0 0 0 e79bfac063e4e39cb81da56ab834c5672b
instantiate 5 strength 128
3 5 0 -
instantiate 2 strength 128
3 2 0 -
generate 3 0 strength 192 string 60baa83d58629122eec412d4879655e6
0 0 0 -
generate 1 40 string 77c049e71f18cd0c9c85328443b98178bbb586ff18663e94dbdd5b2084330f94bc
0 0 0 75c1b92863911b9b97f1cc8e915bda9e3dc78d336da3b0cff2777beab6af802f7bafe2792622a11f
generate 5 32 string 46
0 0 0 29d8eb2ff1b57743359f413ee8aed746a7d9d71769a8cb45ea4a672d0deba968
generate 4 33
0 0 0 bd231f1aeef0bf4d4055d325da533f6df3a842b550656ffe7bbe9a0bf40f1301f2
generate 4 64 pr strength 192
0 0 0 baf4e42f6054bf82afb642655a5e6525e25cf8b024bd7d2a5f0c216812a71e97a36fce1d6621f777216bb014f03496184a7af1491ad924c12db2ae1b0ea620d3
status 2
0 0 0 01000000000000000200000000000000050000000000000005
start 0
0 0 0 -
generate 1 16 pr
0 0 0 effd92eb71fc6a47fccc9d5109ad5ce3
instantiate 6 strength 128
3 6 0 -
generate 7 31 strength 128 string 785245ab2e4a5e3ebe478f8160126286
0 0 0 106d89cfcf50e2a01ae67b5d3e250e74a2cf3c7426ed4b246196749802d55b
generate 3 31 string 445350bbb8d270b8839f3fdad9c957a7
0 0 0 5d00a5af59ad80efcaabab5f24555a6439385493b0d4bb29b887aa9bd2c792
generate 5 32 pr
0 0 0 3408391afd1d7f341993ff1ce1e85ae6ef63ee78aadf777aea447de22cd405e3
generate 6 40 strength 192
5 192 128 -
start 0
0 0 0 -
instantiate 7 strength 256 string b33bf06b96c3922823f6178e640cdc1898a87bac8393203a71b35d061a3fce3f0b
3 7 0 -
generate 3 64
0 0 0 589e88129e7e37e1c6d05ca68a2bf18f5dc8f02ef0dcf116ce2e3e9f67493e52d7c82d35698c818e188392708c3835ba5122d0c40e33e3440fb9e00d279eacba
start 0
0 0 0 -
generate 0 65 strength 256
0 0 0 38e07d40aecbb0cc7d4518b34af525d2d2ef875bcf87bce69d00e83f6ad807e79d12fd3277477cfc3d8cbcbdfcad1e242a8f31908e51998b189fac5dcb2c0cd050
generate 4 40
0 0 0 309253dfd9ac283a6ace4f7b37896a7af3b6b8a491d95949158e8636bebb2ae52bf358860128b854
generate 1 17 pr strength 257 string 33e0934f672cbb3a1221cf69dc1d5f35
5 257 256 -
generate 2 32 strength 128
0 0 0 83766d05c479cb3d4102d579c64ac1a41d3a1d162b7b2c4cd3a7a1d4c990671b
instantiate 6 strength 128 string 2f
3 6 0 -
generate 6 33 string a1
0 0 0 e6c08b8ac46ae87aef335ecfb61a79b567da534642a538f710889a8aa99a72d2cc
generate 3 64
0 0 0 c3c7b688e68f7e6cd865df5c177a02765ee28484903e19c4bbe3021583fb4bd3eb39ce354f92662405e02cbdc7cd23e902148e4cb6fee2db00d329dd0a7bcc18
generate 4 33 pr
0 0 0 91e838f791610657f0bada3ca165ab8d597687b516d14ecceca19049f1f3ef5771
status 2
0 0 0 01000000000000000200000000000000080000000000000008
generate 1 64 pr strength 128 string 81
0 0 0 42fb1a49f54e66797c03767ca51b03731d943097beebad79b3b0d8c3541d7c38ce400e66c4fb0a5b6e5db5d65fc596dd3205c0b0df9b0555de8426d72b3ebaae
generate 2 16 strength 192
0 0 0 25a5d11b8ea29e0e76fcc453b2e676f4
reseed 1
0 0 0 -
generate 6 16
0 0 0 cc140c1a6bb74a95d85e5b3877e2a5db
reseed 2 string 33f84dfc7f59a0b54eefa0892095705b46c34cfc86a61568d4fceb27ec486035e9
0 0 0 -
generate 3 16 strength 192
0 0 0 608233fdb997bba985f98b14b433296c
generate 1 0 strength 256 string d7
0 0 0 -
start 0
0 0 0 -
generate 2 31 pr string 3a
0 0 0 bddbf660384bb80d19a1ffeb809a94a32964a537624f44eb9ab007eac4f209
generate 4 40 strength 192
0 0 0 cbe0ddfe040cb89debd71b2cbf47a2c838eb1a346f3388621c78f50c0d33d09a31bd21f52fae2508
generate 7 32
0 0 0 c3d9837caa7d56281cc14c8e452ca5b046bf348f041e663d790fbafa98cdf93f
generate 4 32 string e56f7cc62011742b2e778f7ca2ffe834
0 0 0 fed14e71b94ba8e8ff1b0a0a57e0d1d343bdc82c1b42adf51d991b868d5a1516
generate 3 17
0 0 0 7966ab8025365be9e66cbc2a7e14d5c999
status 6
0 0 0 01000000000000000200000000000000040000000000000004
generate 5 16
0 0 0 35d7e405c3191aa031b0e73c92ba0c32
uninstantiate 1
0 0 0 -
uninstantiate 7
0 0 0 -
instantiate 1 string aad793fa9d714b0b4b9e3f6a5d7105dd
0 0 0 -
generate 2 0 pr string 2d748f0af61f957476af5995b47ddd22
0 0 0 -
generate 0 1 string 81e2dd869234160886765297dbd466c6
0 0 0 ed
generate 1 1 string 6d495cd4a3a0196d16ff6566c3721aa1
0 0 0 23
generate 6 33 strength 192
5 192 128 -
generate 3 31
0 0 0 49e552f1a24c9e1fbb2e3d19018ffd8bccd2b6bfa963a91bfb5bc1b42f0ab5
generate 7 1
4 7 0 -
generate 6 1 strength 128
0 0 0 e3
generate 4 1 pr
0 0 0 83
reseed 6 pr string 614ed152d5793a59ff7662ca0a43aa3503f934b3c76909e30828e3db1d2fe160d6
0 0 0 -
reseed 2 pr
0 0 0 -
generate 4 16
0 0 0 4ddef90aba081bcdfd7b698f63466be5
generate 3 65
0 0 0 d6bc66232dcb778aec968d4a8c368fb1a7c4839d563bf29cdd91b5dab2b74b596520a64ed0cb055991e7c96ddb03bbc33453dda0ccdc13c8b831fe07a3336b9939
generate 2 0
0 0 0 -
instantiate 2 strength 128 string 91
3 2 0 -
generate 4 1 string cc
0 0 0 41
status 3
0 0 0 01000000000000000400000000000000080000000000000018
status 7
0 0 0 00000000000000000000000000000000020000000000000003
generate 2 16 strength 256
0 0 0 6cbaf0575b7efca373ee333431e13407
instantiate 6 string f718792680972d947f8efde768a2aa24b46099c6e38c4efd570b9a1c542baa572e
3 6 0 -
generate 0 65 string ab
0 0 0 2b63086faf68982520771aac893e1bf98a5e618b2cd7440a42eee796397ecf0231ed70a5fb9fc1e0c227d1837fd9dd0a569c6717c2995b0b3d7bfb34949304d895
generate 7 16
4 7 0 -
start 0
13 9003 1 -
generate 6 65
0 0 0 7be8d09ed15271aad4647c3f669ca4eaf19bcd66d0ea7b60d0632f1b1a394edf02b13bc721cfb82f95d136b5ba61c4f44c28320458a5c765a5c19a0aa26b8461b1
start 0
0 0 0 -
reseed 2
0 0 0 -
generate 4 32 strength 257 string 952add29fbf35789736e78e8cc6477e7
5 257 256 -
instantiate 3 string fa7d4539f3c8e4ab9dd152e8e0a759db
3 3 0 -
generate 4 1 strength 128
0 0 0 0c
generate 1 1 strength 192
0 0 0 6c
generate 2 33 pr strength 257
5 257 256 -
status 2
0 0 0 0100000000000000010000000000000011000000000000000f
generate 1 1 pr
0 0 0 52
generate 1 17 pr strength 257
5 257 256 -
generate 2 0 pr
0 0 0 -
status 4
0 0 0 010000000000000003000000000000000a0000000000000011
generate 1 64
0 0 0 d6cfcac08d2c467a9720fcbc6f50432f071caa1361c2f655ea4900d2e91d9f422455ae18275de5526595bc5b67e485408adbd3ec2543a8827e227a914ba4717b
generate 4 32 pr string b3
0 0 0 2ed795a2e9974d8554d4cecdb826f7ff34331697ab63304a90374587ef0edd24
generate 7 65 pr
4 7 0 -
generate 7 33 pr string a83fb7cb6932d0f3ee08e3f8d5c21ae4de3ffc7219499895622018059ae672ab9a
4 7 0 -
generate 2 65 string 82d4a20f6918a629e269588d8af85a8b3bed517c6a773af30401770c6d53dc2bcc
0 0 0 2687565f75ba4ebf51dcc726634fac1a6c9036dbee6d1ccd95dcc8e6149e757b009a680370b261f6c7c2abb469d3265202ff519ab4557c0e3561c70a25f0141b58
generate 6 1 strength 128
0 0 0 8d
generate 7 17
4 7 0 -
generate 4 1 strength 257 string 82
5 257 256 -
generate 4 64 pr
0 0 0 9e16de0d8789a64afe26b5d15e47b44b4c25c5f7af9345fa61381ac6461ba4a0078c50e305c5d4f95b8388b9d53d28bbab2ba1baee9317b21b19fbe8ae1722ff
instantiate 0 strength 256 string 60
3 0 0 -
generate 4 64 string 08
0 0 0 da99b056b3379e01bd97e7eda53de633a69ea545a6b0b9d13177682e3dd2cf4a47eee16085e597acaffc54146f8d80d33e2ba7b4142cbfd812884c22b38297e0
start 0
0 0 0 -
generate 6 15 pr
0 0 0 99dbeb4baa609f721a2e05d4ea45cf
generate 3 32 strength 256
0 0 0 305284ff53cd8645be51c650dc32986a40a3df56d218e86788c04c03d0b0a3e1
generate 5 16 string 5b7d89626f72c2248ff7827c2196cbe3
0 0 0 72001e8ebd0f03683ed58580d6bc0534
generate 4 1 pr
0 0 0 0e
generate 0 64 pr strength 192
0 0 0 81e0841b6cd21619cad5bc7f3c36067f1640283914a9bbf2b3013792feacdbacb960388b7c1157ce3200c8ae23bbd5e0c0f04f601b08dcb13ff1c08dda931fee
generate 2 33 strength 128
0 0 0 8055802a31d99c1b21d390527792bfe2a19527a52357781b39a8bd883dcef5f768
generate 3 1 pr string a8654b1f80607e31fca7288344d8a78b064be0b0616b3e74993a16ccd8502b5955
0 0 0 0e
status 0
0 0 0 0100000000000000020000000000000017000000000000001e
generate 7 1 strength 192 string d35e79974fa6574a38d4744a55d26d87
4 7 0 -
reseed 7 pr string 1e
4 7 0 -
generate 4 0 string cb9501a9d8060f01f53b66652ab1303af8b7e4e122a9248a363d4b906ce4ccd87a
0 0 0 -
generate 2 40 pr
0 0 0 c536f3bb8da88b8bb112cafa12fbd3ee00b3ecd54682d52b317e9142c2fd4c974a020fec77f05542
generate 7 31 pr string 1dbf6f8cfb4dec14eae7ae85c7f249472750c17c5a8234ac1fdcab34036c49fc6f
4 7 0 -
instantiate 4 strength 256 string a7
3 4 0 -
start 0
0 0 0 -
reseed 1 pr
0 0 0 -
generate 5 65
0 0 0 cfae8098f955e22a3f4a48b86196484d7622893a96f126eb14c6829a6c7e4609ba919266868e1a9414ac9c279ab615f847d50ce2b3ce1e2c86da102ac7ea36ca7f
status 3
0 0 0 010000000000000002000000000000000d000000000000001e
reseed 1
0 0 0 -
generate 3 0 strength 192 string 471b5e5c56d06f83cc1c475bd92a3ab9
0 0 0 -
uninstantiate 5
0 0 0 -
generate 2 33 strength 192
0 0 0 a09e000d584cfaeadd2c8b415f521b441269341050c9c292b0da08babb4599fe86
generate 5 17
4 5 0 -
generate 6 33 string d7
4 5 0 -
generate 2 33 string 46
0 0 0 f5f5aa3cfad8efe0f8d450a91f34d790a2537481bfefb6999dd69571f07a6315f3
status 7
0 0 0 00000000000000000000000000000000020000000000000003
start 0
0 0 0 -
generate 3 32 pr strength 257
5 257 256 -
instantiate 4 strength 256
3 4 0 -
generate 8 32
1 8 8 -
generate 0 1
0 0 0 46
instantiate 1 strength 128 string 03
3 1 0 -
generate 3 65 strength 257
5 257 256 -
generate 1 64
0 0 0 2a4b7de9b98f1c07d6fad6a52da05480669a32924b73c2c77b1be4cf7afcab688143a5e0f8c090a62a56a5edae51fe3cef22b180013a64316d74e1f140305363
generate 5 64 string 31
4 5 0 -
instantiate 7 strength 128 string 8c76928e37aee779f1aa0f62e726eb68d65d4ec68287512fd4fdee772ba2b47ea3
4 5 0 -
generate 5 1 pr strength 257
4 5 0 -
status 8
1 8 8 -
generate 6 1
4 5 0 -
generate 6 32 pr string f75a56e3e6c92d14ec2f996bec48adba
4 5 0 -
generate 3 64 strength 257
5 257 256 -";

// What Status says at the end, and the counts of the sources.
pub(crate) const COUNTS: &str = "node 0: live 1 counter 2 seeds 26 gives 35
node 1: live 1 counter 2 seeds 29 gives 37
node 2: live 1 counter 2 seeds 28 gives 26
node 3: live 1 counter 3 seeds 13 gives 31
node 4: live 1 counter 3 seeds 14 gives 23
node 5: live 0 counter 0 seeds 6 gives 14
node 6: live 1 counter 2 seeds 8 gives 8
node 7: live 0 counter 0 seeds 2 gives 3
source 0: taken 14392 blocks 27
";
